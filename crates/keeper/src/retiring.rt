// Retiring a block that was cut out of the tree.
ghost use Rattle.std.specs.Prelude.{◌≡◌, Some, true};
ghost use Rattle.machine.specs.State.{block as block_of, worker as worker_of};
ghost use Rattle.machine.specs.Calls.{joined, retired, with_batch, retire};
ghost use Rattle.keeper.specs.Called.{plain};
ghost use Rattle.keeper.specs.Fits.{task_fits, batch_fits};

use crate::answers::Plain;
use crate::ranges::{BlockId, Content, WorkerId};
use crate::tables::Tables;
use machine::{Batch, Refusal, Task, Worker};

impl Tables {
    // The worker's own batch after the block has joined it: the first to join is the lead.
    fn joined(&self, worker: WorkerId, block: BlockId) -> Batch
        ensures value { result ≡ joined (worker_of self.now.core worker.number).batch block.number (block_of self.now.core block.number).birth }
        ensures fits { batch_fits (Some result) ≡ true }
    {
        let birth = self.core.blocks.rows[block.number as usize].birth;
        match self.core.workers[worker.number as usize].batch {
            None => Batch {
                lead: block.number,
                newest: block.number,
                size: 1,
                least: birth,
            },
            Some(own) => Batch {
                lead: own.lead,
                newest: block.number,
                size: own.size.saturating_add(1),
                least: own.least.min(birth),
            },
        }
    }

    // The block leaves the live ones, its links no longer count, and it joins the worker's batch, which is `batch` then.
    fn withdraw(&mut self, worker: WorkerId, block: BlockId, batch: Batch)
        requires { batch_fits (Some batch) ≡ true }
        ensures { self.new.core ≡ retired self.old.core worker.number block.number batch }
    {
        let own = self.core.workers[worker.number as usize].batch;
        let live = self.core.live;
        let [first, second] = self.core.blocks.rows[block.number as usize].links;
        self.name_less(Content { block: first });
        self.name_less(Content { block: second });
        self.core.blocks.retire(block.number, own, batch.lead);
        self.core.live = live.saturating_sub(1);
    }

    // The worker has another batch and task.
    fn gather(&mut self, worker: WorkerId, batch: Batch, task: Task)
        requires task { task_fits task ≡ true }
        requires batch { batch_fits (Some batch) ≡ true }
        ensures { self.new.core ≡ with_batch self.old.core worker.number batch task }
    {
        let me = Worker {
            task,
            batch: Some(batch),
            ..self.core.workers[worker.number as usize]
        };
        self.put_worker(worker, me);
    }

    // Retire: the block joins the worker's batch, which is tried where its size is then a multiple of the trying period.
    pub(crate) fn retire(&mut self, worker: u16, block: u16) -> Plain
        ensures { plain self.new.core result ≡ retire self.old.core worker block }
    {
        let worker = self.worker(worker)?;
        let cut = self.block(block)?;
        self.must_be_free(worker)?;
        if !self.in_hand(worker, cut) {
            return Err(Refusal::OutOfHand);
        }
        if !self.is_live(cut) {
            return Err(Refusal::Withdrawn);
        }
        if self.core.blocks.rows[block as usize].names != 0 {
            return Err(Refusal::Linked);
        }
        let batch = self.joined(worker, cut);
        let due = batch.size % self.core.form.trying_period == 0;
        self.withdraw(worker, cut, batch);
        if due {
            let first = Task::TryVisit {
                place: 0,
                next: block,
                aside: 0,
            };
            self.gather(worker, batch, first);
            return Ok((true, None));
        }
        self.gather(worker, batch, Task::Idle);
        Ok((false, None))
    }
}
