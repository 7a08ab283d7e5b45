// The checks of the calls: what is given exists, and the worker has no task.
ghost use Rattle.std.specs.Prelude.{◌≡◌, ◌≤◌, true, false, MatchResult, ◌==◌, nat_lt};
ghost use Rattle.machine.specs.declared.refusals.Refusal.TheVariants.{Stranger, Busy};
ghost use Rattle.keeper.specs.Tables.{Serves};
ghost use Rattle.machine.specs.Calls.{is_worker, is_hold, is_cell, is_block, or_none, free};

use crate::ranges::{Below, BlockId, CellId, Content, HoldId, WorkerId};
use crate::tables::Tables;
use machine::{Refusal, Task};

// The index that a number is, where there are so many entries; a stranger past them.
pub(crate) fn known<const N: u16>(number: u16, entries: u16) -> Result<Below<N>, Refusal>
    requires { entries ≤ N }
    ensures { MatchResult result (λ found. (found.number ≡ number) × (nat_lt number entries ≡ true)) (λ refused. (refused ≡ Stranger) × (nat_lt number entries ≡ false)) }
{
    if number < entries {
        Ok(Below { number })
    } else {
        Err(Refusal::Stranger)
    }
}

impl Tables {
    // The worker of a number.
    pub(crate) fn worker(&self, number: u16) -> Result<WorkerId, Refusal>
        ensures { MatchResult result (λ found. (found.number ≡ number) × (is_worker self.now.core number ≡ true)) (λ refused. (refused ≡ Stranger) × (is_worker self.now.core number ≡ false)) }
    {
        known(number, self.core.form.workers)
    }

    // The hold of a number.
    pub(crate) fn hold(&self, number: u16) -> Result<HoldId, Refusal>
        ensures { MatchResult result (λ found. (found.number ≡ number) × (is_hold self.now.core number ≡ true)) (λ refused. (refused ≡ Stranger) × (is_hold self.now.core number ≡ false)) }
    {
        known(number, self.core.form.holds)
    }

    // The cell of a number.
    pub(crate) fn cell(&self, number: u16) -> Result<CellId, Refusal>
        ensures { MatchResult result (λ found. (found.number ≡ number) × (is_cell self.now.core number ≡ true)) (λ refused. (refused ≡ Stranger) × (is_cell self.now.core number ≡ false)) }
    {
        known(number, 16 + 2 * self.core.form.blocks)
    }

    // The block of a number.
    pub(crate) fn block(&self, number: u16) -> Result<BlockId, Refusal>
        ensures { MatchResult result (λ found. (found.number ≡ number) × (is_block self.now.core number ≡ true)) (λ refused. (refused ≡ Stranger) × (is_block self.now.core number ≡ false)) }
    {
        known(number, self.core.form.blocks)
    }

    // The block of a number, if one is given.
    pub(crate) fn block_or_none(&self, given: Option<u16>) -> Result<Content, Refusal>
        ensures { MatchResult result (λ found. (found.block ≡ given) × (or_none (is_block self.now.core) given ≡ true)) (λ refused. (refused ≡ Stranger) × (or_none (is_block self.now.core) given ≡ false)) }
    {
        if let Some(number) = given {
            self.block(number)?;
        }
        Ok(Content { block: given })
    }

    // Refused where the worker has a task.
    pub(crate) fn must_be_free(&self, worker: WorkerId) -> Result<(), Refusal>
        ensures { MatchResult result (λ _. free self.now.core worker.number ≡ true) (λ refused. (refused ≡ Busy) × (free self.now.core worker.number ≡ false)) }
    {
        match self.core.workers[worker.number as usize].task {
            Task::Idle => Ok(()),
            _ => Err(Refusal::Busy),
        }
    }

    // Refused where the worker has a task, or a table that is lent has not an entry for each block.
    pub(crate) fn must_serve(&self, worker: WorkerId, entries: usize) -> Result<(), Refusal>
        ensures { Serves (free self.now.core worker.number) (entries == self.now.core.form.blocks) result }
    {
        self.must_be_free(worker)?;
        if entries != self.core.form.blocks as usize {
            return Err(Refusal::Misfit);
        }
        Ok(())
    }
}
