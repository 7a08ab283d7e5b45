// Dropping a worker's holds, one after another.
ghost use Rattle.std.specs.Prelude.{◌≡◌};
ghost use Rattle.machine.specs.Dropping.{drop_on, drop_walk, drop_era};
ghost use Rattle.machine.specs.Moves.{over};
ghost use Rattle.keeper.specs.Called.{plain, outcome};

use crate::answers::{Counted, Plain};
use crate::ranges::{BlockId, HoldId, WorkerId};
use crate::tables::Tables;
use machine::{Refusal, Task};
use pools::Pool;

// Where the walk of a drop goes after a block that stands over this one.
fn drop_on(hold: u16, under: Option<u16>) -> Task
    ensures { result ≡ drop_on hold under }
{
    match under {
        None => Task::DropEra { hold },
        Some(next) => Task::DropWalk { hold, next },
    }
}

impl Tables {
    // The walk of a drop.
    pub(crate) fn drop_walk<P: Pool>(
        &mut self,
        pool: &mut P,
        worker: WorkerId,
        hold: HoldId,
        next: BlockId,
    ) -> Counted
        ensures { outcome self.new.core (P.Pool.inside pool.new) result ≡ over (drop_walk self.old.core worker.number hold.number next.number) (P.Pool.inside pool.old) (P.Pool.next pool.old) }
    {
        let under = self.core.blocks.rows[next.number as usize].under;
        self.handle(pool, worker, next, drop_on(hold.number, under))
    }

    // The era is set to 0; after the last hold the task ends.
    pub(crate) fn drop_era(&mut self, worker: WorkerId, hold: HoldId) -> Plain
        ensures { plain self.new.core result ≡ drop_era self.old.core worker.number hold.number }
    {
        self.put_era(worker, hold, 0);
        let next = hold.number + 1;
        if next < self.core.form.holds {
            return self.go_on(worker, Task::DropList { hold: next });
        }
        self.end(worker)
    }
}
