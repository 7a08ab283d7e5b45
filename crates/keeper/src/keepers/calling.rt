// A keeper's calls. Each answers whether a task goes on, its value, and how many blocks were given back; and whatever the
// numbers and the state, it does what the machine's definition says, to the keeper and to its pool.
ghost use Rattle.std.specs.Prelude.{◌≡◌};
ghost use Rattle.machine.specs.Moves.{over};
ghost use Rattle.machine.specs.Calls.{take, look, drop, retire, relink};
ghost use Rattle.machine.specs.Turns.{turn};
ghost use Rattle.keeper.specs.Called.{called, call_of};

use crate::answers::{Told, placed, plain};
use crate::keepers::Keeper;
use pools::Pool;

impl<P: Pool> Keeper<P> {
    // Begins to take a block from the pool.
    pub fn take(&mut self, worker: u16) -> Told
        ensures call { called self.new.tables.core (P.Pool.inside self.new.pool) result ≡ call_of worker (over (take self.old.tables.core worker) (P.Pool.inside self.old.pool) (P.Pool.next self.old.pool)) }
        ensures pool { self.new.pool ≡ self.old.pool }
    {
        placed(worker, plain(self.tables.take(worker)))
    }

    // Begins to look at a cell with one of the worker's holds.
    pub fn look(&mut self, worker: u16, hold: u16, cell: u16) -> Told
        ensures call { called self.new.tables.core (P.Pool.inside self.new.pool) result ≡ call_of worker (over (look self.old.tables.core worker hold cell) (P.Pool.inside self.old.pool) (P.Pool.next self.old.pool)) }
        ensures pool { self.new.pool ≡ self.old.pool }
    {
        placed(worker, plain(self.tables.look(worker, hold, cell)))
    }

    // Begins to drop all of the worker's holds.
    pub fn drop(&mut self, worker: u16) -> Told
        ensures call { called self.new.tables.core (P.Pool.inside self.new.pool) result ≡ call_of worker (over (drop self.old.tables.core worker) (P.Pool.inside self.old.pool) (P.Pool.next self.old.pool)) }
        ensures pool { self.new.pool ≡ self.old.pool }
    {
        placed(worker, plain(self.tables.drop(worker)))
    }

    // Gives up a block that was cut out of the tree; where the worker's batch is due, a try begins.
    pub fn retire(&mut self, worker: u16, block: u16) -> Told
        ensures call { called self.new.tables.core (P.Pool.inside self.new.pool) result ≡ call_of worker (over (retire self.old.tables.core worker block) (P.Pool.inside self.old.pool) (P.Pool.next self.old.pool)) }
        ensures pool { self.new.pool ≡ self.old.pool }
    {
        placed(worker, plain(self.tables.retire(worker, block)))
    }

    // Lets a cell that holds `expected` hold `new`.
    pub fn relink(
        &mut self,
        worker: u16,
        cell: u16,
        expected: Option<u16>,
        new: Option<u16>,
    ) -> Told
        ensures call { called self.new.tables.core (P.Pool.inside self.new.pool) result ≡ call_of worker (over (relink self.old.tables.core worker cell expected new) (P.Pool.inside self.old.pool) (P.Pool.next self.old.pool)) }
        ensures pool { self.new.pool ≡ self.old.pool }
    {
        placed(
            worker,
            plain(self.tables.relink(worker, cell, expected, new)),
        )
    }

    // Does one step of the worker's task.
    pub fn turn(&mut self, worker: u16) -> Told
        ensures { called self.new.tables.core (P.Pool.inside self.new.pool) result ≡ call_of worker (over (turn self.old.tables.core (P.Pool.inside self.old.pool) (P.Pool.next self.old.pool) worker) (P.Pool.inside self.old.pool) (P.Pool.next self.old.pool)) }
    {
        placed(worker, self.tables.turn(&mut self.pool, worker))
    }
}
