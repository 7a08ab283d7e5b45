// Trying to give a worker's own batch back: visits, hangings and a last turn.
ghost use Rattle.std.specs.Prelude.{◌≡◌, ◌<◌, ◌≤◌, Some, true, slice_index_or};
ghost use Rattle.machine.specs.State.{worker as worker_of};
ghost use Rattle.machine.specs.Moves.{over};
ghost use Rattle.machine.specs.Trying.{passed_over, block_after, visited, hanged, try_visit, try_last};
ghost use Rattle.keeper.specs.Called.{plain, outcome};
ghost use Rattle.keeper.specs.Fits.{batch_fits, list_fits, task_fits};
ghost use Rattle.machine.specs.declared.states.Task.TheVariants.{TryHang};
ghost use Rattle.keeper.specs.Words.{hang_as};

use crate::answers::{Counted, Plain, plain};
use crate::ranges::{BlockId, Place, WorkerId, id};
use crate::tables::Tables;
use machine::{Batch, Block, HungList, Refusal, Reservation, Task, Worker};
use pools::Pool;

// Whether a reservation is passed over: its list is off, or its era is below the batch's least birth.
fn passed_over(reservation: Reservation, least: u32) -> bool
    ensures { result ≡ passed_over reservation least }
{
    matches!(reservation.list, HungList::Off) || reservation.era < least
}

impl Tables {
    // The block of a batch that comes after this one.
    fn block_after(&self, batch: Batch, block: BlockId) -> u16
        ensures { result ≡ block_after self.now.core batch block.number }
    {
        self.core.blocks.rows[block.number as usize]
            .elder
            .unwrap_or(batch.lead)
    }

    // What follows the visit of a place, with `next` the next block and so many set aside.
    fn visited(&self, batch: Batch, place: Place, next: u16, aside: u16) -> Task
        ensures { result ≡ visited self.now.core batch place.number next aside }
    {
        if place.number + 1 < self.core.form.workers * self.core.form.holds {
            Task::TryVisit {
                place: place.number + 1,
                next,
                aside,
            }
        } else if aside == 0 {
            Task::TryLast { hung: 0 }
        } else {
            Task::TryHang {
                next: batch.newest,
                left: aside,
                hung: 0,
            }
        }
    }

    // A visit: the reservation is passed over, or the next block is set aside for it; if only the lead is left, the task ends.
    pub(crate) fn visit(
        &mut self,
        worker: WorkerId,
        place: Place,
        next: BlockId,
        aside: u16,
    ) -> Plain
        requires { aside ≤ place.number }
        ensures { plain self.new.core result ≡ try_visit self.old.core worker.number place.number next.number aside (worker_of self.old.core worker.number).batch }
    {
        let Some(batch) = self.core.workers[worker.number as usize].batch else {
            return self.end(worker);
        };
        let reservation = self.core.reservations[place.number as usize];
        if passed_over(reservation, batch.least) {
            let task = self.visited(batch, place, next.number, aside);
            return self.go_on(worker, task);
        }
        if next.number == batch.lead {
            return self.end(worker);
        }
        let after = self.block_after(batch, next);
        let task = self.visited(batch, place, after, aside + 1);
        let row = Block {
            slot: place.number,
            ..self.core.blocks.rows[next.number as usize]
        };
        self.put_block(next, row);
        self.go_on(worker, task)
    }

    // What follows the hanging of a block, with so many left and so many hung.
    fn hanged(&self, batch: Batch, block: BlockId, left: u16, hung: u16) -> Task
        ensures { result ≡ hanged self.now.core batch block.number left hung }
    {
        if left > 1 {
            Task::TryHang {
                next: self.block_after(batch, block),
                left: left - 1,
                hung,
            }
        } else {
            Task::TryLast { hung }
        }
    }

    // A hanging: where the list at the block's place is not off, the block is put at its front.
    pub(crate) fn hang(
        &mut self,
        worker: WorkerId,
        block: BlockId,
        left: u16,
        hung: u16,
        list: HungList,
    ) -> Plain
        requires task { task_fits (TryHang block.number left hung) ≡ true }
        requires list { list_fits list ≡ true }
        ensures { plain self.new.core result ≡ hang_as self.old.core worker.number block.number left hung list (worker_of self.old.core worker.number).batch }
    {
        let Some(batch) = self.core.workers[worker.number as usize].batch else {
            return self.end(worker);
        };
        let under = match list {
            HungList::Off => {
                let task = self.hanged(batch, block, left, hung);
                return self.go_on(worker, task);
            }
            HungList::Empty => None,
            HungList::Newest(newest) => Some(newest),
        };
        let task = self.hanged(batch, block, left, hung + 1);
        let row = self.core.blocks.rows[block.number as usize];
        self.put_block(block, Block { under, ..row });
        let list = HungList::Newest(block.number);
        let era = self.core.reservations[row.slot as usize].era;
        self.put_reservation(id(row.slot), Reservation { list, era });
        self.go_on(worker, task)
    }

    // The last turn: the number hung, less 1,024, is added to the count, and at 0 the batch is given back.
    pub(crate) fn last<P: Pool>(&mut self, pool: &mut P, worker: WorkerId, hung: u16) -> Counted
        requires { hung ≤ 32 }
        ensures { outcome self.new.core (P.Pool.inside pool.new) result ≡ over (try_last self.old.core worker.number hung (worker_of self.old.core worker.number).batch) (P.Pool.inside pool.old) (P.Pool.next pool.old) }
    {
        let Some(batch) = self.core.workers[worker.number as usize].batch else {
            return plain(self.end(worker));
        };
        let lead = id(batch.lead);
        let row = self.core.blocks.rows[batch.lead as usize];
        let count = row.count.saturating_sub(1024 - hung);
        let newest = batch.newest;
        self.put_block(
            lead,
            Block {
                count,
                newest,
                ..row
            },
        );
        let given = self.give_due(pool, lead);
        let me = Worker {
            task: Task::Idle,
            batch: None,
            ..self.core.workers[worker.number as usize]
        };
        self.put_worker(worker, me);
        Ok((false, None, given))
    }
}
