// The calls that begin a task: their checks in order, and what they do where all are passed.
ghost use Rattle.std.specs.Prelude.{◌≡◌};
ghost use Rattle.machine.specs.Cells.{home};
ghost use Rattle.machine.specs.Hands.{in_hand_without};
ghost use Rattle.machine.specs.Calls.{or_none, take, look, drop};
ghost use Rattle.keeper.specs.Called.{plain};

use crate::answers::Plain;
use crate::cells::home;
use crate::ranges::{CellId, HoldId, WorkerId, id};
use crate::tables::Tables;
use machine::{Refusal, Task, Worker};

impl Tables {
    // Take.
    pub(crate) fn take(&mut self, worker: u16) -> Plain
        ensures { plain self.new.core result ≡ take self.old.core worker }
    {
        let worker = self.worker(worker)?;
        self.must_be_free(worker)?;
        self.go_on(worker, Task::TakeEra)
    }

    // Whether the worker may look at the cell with the hold: it is an anchor, or a link of a block that the worker has in its
    // hand without that hold.
    fn may_look(&self, worker: WorkerId, hold: HoldId, cell: CellId) -> bool
        ensures { result ≡ or_none (in_hand_without self.now.core worker.number hold.number) (home cell.number) }
    {
        home(cell)
            .block
            .is_none_or(|block| self.in_hand_without(worker, hold, id(block)))
    }

    // Look: the hold shows nothing, and the task begins.
    pub(crate) fn look(&mut self, worker: u16, hold: u16, cell: u16) -> Plain
        ensures { plain self.new.core result ≡ look self.old.core worker hold cell }
    {
        let worker = self.worker(worker)?;
        let own = self.hold(hold)?;
        let target = self.cell(cell)?;
        self.must_be_free(worker)?;
        if !self.may_look(worker, own, target) {
            return Err(Refusal::OutOfHand);
        }
        self.show(worker, own, None, Task::LookCell { hold, cell });
        Ok((true, None))
    }

    // Drop: all holds of the worker show nothing, and the task begins.
    pub(crate) fn drop(&mut self, worker: u16) -> Plain
        ensures { plain self.new.core result ≡ drop self.old.core worker }
    {
        let worker = self.worker(worker)?;
        self.must_be_free(worker)?;
        let me = Worker {
            task: Task::DropList { hold: 0 },
            shows: [None; 4],
            ..self.core.workers[worker.number as usize]
        };
        self.put_worker(worker, me);
        Ok((true, None))
    }
}
