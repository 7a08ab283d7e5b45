// Giving a batch back to the pool, and the walk that leads to it.
ghost use Rattle.std.specs.Prelude.{◌≡◌, Some, true};
ghost use Rattle.pools.specs.Counts.{bit};
ghost use Rattle.pools.specs.Meaning.{is_out, gained};
ghost use Rattle.machine.specs.Moves.{gained_all, gain, over};
ghost use Rattle.machine.specs.Walking.{members, all_pooled, due, handled};
ghost use Rattle.keeper.specs.Called.{outcome};
ghost use Rattle.keeper.specs.Fits.{task_fits};

use crate::answers::Counted;
use crate::ranges::{BlockId, WorkerId, id};
use crate::tables::Tables;
use machine::{Block, Refusal, Standing, Task};
use pools::Pool;

// Gives a block to the pool, and says by how many the pool gained.
fn give_one<P: Pool>(pool: &mut P, block: u16) -> u16
    ensures pool { P.Pool.inside pool.new ≡ gained (P.Pool.inside pool.old) block }
    ensures number { result ≡ bit (is_out (P.Pool.inside pool.old) block) }
{
    u16::from(pool.give(block).is_ok())
}

impl Tables {
    // Gives the block and each older one of its batch to the pool, newest first, and says by how many the pool gained.
    fn give_back<P: Pool>(&mut self, pool: &mut P, newest: BlockId) -> u16
        ensures core { self.new.core ≡ all_pooled self.old.core (members 2048 self.old.core (Some newest.number)) }
        ensures pool { P.Pool.inside pool.new ≡ gained_all (P.Pool.inside pool.old) (members 2048 self.old.core (Some newest.number)) }
        ensures number { result ≡ gain (P.Pool.inside pool.old) (members 2048 self.old.core (Some newest.number)) }
    {
        let mut next = Some(newest.number);
        let mut given = 0;
        // Not a bare `while let`: that the elders come to an end is known only from there being so many blocks.
        for _ in 0..2048u16 {
            let Some(block) = next else {
                break;
            };
            let row = self.core.blocks.rows[block as usize];
            next = row.elder;
            let standing = Standing::Pooled;
            self.put_block(id(block), Block { standing, ..row });
            given += give_one(pool, block);
        }
        given
    }

    // Gives the batch of a lead back if its count is 0, and says by how many the pool gained.
    pub(crate) fn give_due<P: Pool>(&mut self, pool: &mut P, lead: BlockId) -> u16
        ensures core { self.new.core ≡ all_pooled self.old.core (due self.old.core lead.number) }
        ensures pool { P.Pool.inside pool.new ≡ gained_all (P.Pool.inside pool.old) (due self.old.core lead.number) }
        ensures number { result ≡ gain (P.Pool.inside pool.old) (due self.old.core lead.number) }
    {
        let row = self.core.blocks.rows[lead.number as usize];
        if row.count == 0 {
            self.give_back(pool, id(row.newest))
        } else {
            0
        }
    }

    // Handles one block of a walk: the count of its batch goes down, and at 0 the batch is given back; then `on` is the task.
    pub(crate) fn handle<P: Pool>(
        &mut self,
        pool: &mut P,
        worker: WorkerId,
        block: BlockId,
        on: Task,
    ) -> Counted
        requires { task_fits on ≡ true }
        ensures { outcome self.new.core (P.Pool.inside pool.new) result ≡ over (handled self.old.core worker.number block.number on) (P.Pool.inside pool.old) (P.Pool.next pool.old) }
    {
        let lead = id(self.core.blocks.rows[block.number as usize].lead);
        let row = self.core.blocks.rows[lead.number as usize];
        let count = row.count.saturating_sub(1);
        self.put_block(lead, Block { count, ..row });
        let given = self.give_due(pool, lead);
        self.put_task(worker, on);
        Ok((true, None, given))
    }
}
