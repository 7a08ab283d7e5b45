// Taking a block from the pool, in two turns.
ghost use Rattle.std.specs.Prelude.{◌≡◌};
ghost use Rattle.machine.specs.Moves.{over};
ghost use Rattle.machine.specs.Taking.{counted_up, take_era, take_block};
ghost use Rattle.keeper.specs.Called.{plain, outcome};

use crate::answers::{Counted, Plain};
use crate::ranges::{WorkerId, id};
use crate::tables::Tables;
use machine::{Block, Refusal, Standing, Task, Worker};
use pools::Pool;

impl Tables {
    // The worker's taking count goes up, from one below the period back to 0, and the second turn is next.
    fn count_up(&mut self, worker: WorkerId)
        ensures { self.new.core ≡ counted_up self.old.core worker.number }
    {
        let me = self.core.workers[worker.number as usize];
        let up = me.takings + 1;
        let takings = if up == self.core.form.taking_period {
            0
        } else {
            up
        };
        let task = Task::TakeBlock;
        self.put_worker(
            worker,
            Worker {
                takings,
                task,
                ..me
            },
        );
    }

    // First turn: at a taking count of 0 the era rises by one, unless it is at its end.
    pub(crate) fn take_era(&mut self, worker: WorkerId) -> Plain
        ensures { plain self.new.core result ≡ take_era self.old.core worker.number }
    {
        if self.core.workers[worker.number as usize].takings == 0 {
            if self.core.era == u32::MAX {
                self.put_task(worker, Task::Idle);
                return Err(Refusal::EraSpent);
            }
            self.core.era += 1;
        }
        self.count_up(worker);
        Ok((true, None))
    }

    // Second turn: the block that the pool hands out is live and owned, and is the value.
    pub(crate) fn take_block<P: Pool>(&mut self, pool: &mut P, worker: WorkerId) -> Counted
        ensures { outcome self.new.core (P.Pool.inside pool.new) result ≡ over (take_block self.old.core (P.Pool.inside pool.old) (P.Pool.next pool.old) worker.number) (P.Pool.inside pool.old) (P.Pool.next pool.old) }
    {
        self.put_task(worker, Task::Idle);
        if self.core.live >= self.core.form.live {
            return Err(Refusal::Full);
        }
        let block = pool.take()?;
        let row = Block {
            standing: Standing::Live,
            owner: Some(worker.number),
            birth: self.core.era,
            links: [None; 2],
            ..self.core.blocks.rows[block as usize]
        };
        self.put_block(id(block), row);
        self.core.live += 1;
        Ok((false, Some(block), 0))
    }
}
