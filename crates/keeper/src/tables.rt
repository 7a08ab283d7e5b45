// A keeper's tables, and one entry of them replaced.
ghost use Rattle.std.specs.Prelude.{◌≡◌, true, nat_lt};
ghost use Rattle.machine.specs.State.{with_anchor, with_block, with_reservation, with_worker, with_task, worker};
ghost use Rattle.machine.specs.Machine.{all_fit};
ghost use Rattle.keeper.specs.Fits.{task_fits, batch_fits, list_fits, block_fits, TakingsFit, TasksFit, BatchesFit, ListsFit, BlocksFit, AnchorsFit};

use crate::ranges::{AnchorId, BlockId, Content, Place, WorkerId};
use machine::{Block, Core, Reservation, Task, Worker};

// A core whose figures are within their limits, and in which each number that stands for a block, a hold, a cell or a place is
// one that its tables have: so no index and no sum goes out of range.
#[derive(Drop)]
pub(crate) struct Tables {
    pub(crate) core: Core,
    ghost figures: { all_fit core.form ≡ true },
    ghost takings: { TakingsFit core },
    ghost tasks: { TasksFit core },
    ghost batches: { BatchesFit core },
    ghost lists: { ListsFit core },
    ghost blocks: { BlocksFit core },
    ghost anchors: { AnchorsFit core },
}

// That what is written fits is asked, here and of whoever hands it on to here. Types that say it of tasks, batches, lists and blocks would be
// no plainer: each of the many places that make one would wrap it, with the same goal there, and each match would take it off again.
impl Tables {
    // Another anchor.
    pub(crate) fn put_anchor(&mut self, anchor: AnchorId, to: Content)
        ensures { self.new.core ≡ with_anchor self.old.core anchor.number to.block }
    {
        self.core.anchors[anchor.number as usize] = to.block;
    }

    // Another block.
    pub(crate) fn put_block(&mut self, block: BlockId, row: Block)
        requires { block_fits row ≡ true }
        ensures { self.new.core ≡ with_block self.old.core block.number row }
    {
        self.core.blocks.rows[block.number as usize] = row;
    }

    // Another reservation.
    pub(crate) fn put_reservation(&mut self, place: Place, reservation: Reservation)
        requires { list_fits reservation.list ≡ true }
        ensures { self.new.core ≡ with_reservation self.old.core place.number reservation }
    {
        self.core.reservations[place.number as usize] = reservation;
    }

    // Another worker.
    pub(crate) fn put_worker(&mut self, worker: WorkerId, me: Worker)
        requires takings { nat_lt me.takings self.old.core.form.taking_period ≡ true }
        requires task { task_fits me.task ≡ true }
        requires batch { batch_fits me.batch ≡ true }
        ensures { self.new.core ≡ with_worker self.old.core worker.number me }
    {
        self.core.workers[worker.number as usize] = me;
    }

    // Another task of a worker.
    pub(crate) fn put_task(&mut self, worker: WorkerId, task: Task)
        requires { task_fits task ≡ true }
        ensures { self.new.core ≡ with_task self.old.core worker.number task }
    {
        // That field alone: a turn that only moves on then copies no worker.
        self.core.workers[worker.number as usize].task = task;
    }
}
