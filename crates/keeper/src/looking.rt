// Looking at a cell: five steps, with a walk between the third and the fourth.
ghost use Rattle.std.specs.Prelude.{◌≡◌};
ghost use Rattle.machine.specs.Moves.{over};
ghost use Rattle.machine.specs.Looking.{look_cell, look_era, look_on, look_walk, look_again, look_write};
ghost use Rattle.keeper.specs.Called.{plain, outcome};

use crate::answers::{Counted, Plain};
use crate::ranges::{BlockId, CellId, HoldId, WorkerId};
use crate::tables::Tables;
use machine::{Refusal, Task};
use pools::Pool;

// Where the walk of a look goes after a block that stands over this one.
fn look_on(hold: u16, cell: u16, under: Option<u16>) -> Task
    ensures { result ≡ look_on hold cell under }
{
    match under {
        None => Task::LookAgain { hold, cell },
        Some(next) => Task::LookWalk { hold, cell, next },
    }
}

// A worker, a hold and a cell go together through these steps. A struct of them would be no plainer: a task has plain numbers, by a rule of
// the project, so each step would take it apart again.
impl Tables {
    // Step 1 reads the cell, unless it is a link of a block no longer live.
    pub(crate) fn look_cell(&mut self, worker: WorkerId, hold: HoldId, cell: CellId) -> Plain
        ensures { plain self.new.core result ≡ look_cell self.old.core worker.number hold.number cell.number }
    {
        if !self.readable(cell) {
            self.put_task(worker, Task::Idle);
            return Err(Refusal::Withdrawn);
        }
        let step = Task::LookEra {
            hold: hold.number,
            cell: cell.number,
            seen: self.held(cell).block,
        };
        self.go_on(worker, step)
    }

    // Step 2 reads the era: where the reservation has it, the hold shows what step 1 read.
    pub(crate) fn look_era(
        &mut self,
        worker: WorkerId,
        hold: HoldId,
        cell: CellId,
        seen: Option<u16>,
    ) -> Plain
        ensures { plain self.new.core result ≡ look_era self.old.core worker.number hold.number cell.number seen }
    {
        let era = self.core.era;
        if era == self.own(worker, hold).era {
            self.show(worker, hold, seen, Task::Idle);
            return Ok((false, seen));
        }
        let step = Task::LookList {
            hold: hold.number,
            cell: cell.number,
            era,
        };
        self.go_on(worker, step)
    }

    // The walk of a look.
    pub(crate) fn look_walk<P: Pool>(
        &mut self,
        pool: &mut P,
        worker: WorkerId,
        hold: HoldId,
        cell: CellId,
        next: BlockId,
    ) -> Counted
        ensures { outcome self.new.core (P.Pool.inside pool.new) result ≡ over (look_walk self.old.core worker.number hold.number cell.number next.number) (P.Pool.inside pool.old) (P.Pool.next pool.old) }
    {
        let under = self.core.blocks.rows[next.number as usize].under;
        let on = look_on(hold.number, cell.number, under);
        self.handle(pool, worker, next, on)
    }

    // Step 4 reads the era.
    pub(crate) fn look_again(&mut self, worker: WorkerId, hold: HoldId, cell: CellId) -> Plain
        ensures { plain self.new.core result ≡ look_again self.old.core worker.number hold.number cell.number }
    {
        let step = Task::LookWrite {
            hold: hold.number,
            cell: cell.number,
            era: self.core.era,
        };
        self.go_on(worker, step)
    }

    // Step 5 writes the era last read into the reservation; step 1 follows.
    pub(crate) fn reserve(
        &mut self,
        worker: WorkerId,
        hold: HoldId,
        cell: CellId,
        era: u32,
    ) -> Plain
        ensures { plain self.new.core result ≡ look_write self.old.core worker.number hold.number cell.number era }
    {
        self.put_era(worker, hold, era);
        let step = Task::LookCell {
            hold: hold.number,
            cell: cell.number,
        };
        self.go_on(worker, step)
    }
}
