// A turn: one step of a worker's task.
ghost use Rattle.std.specs.Prelude.{◌≡◌, true};
ghost use Rattle.machine.specs.State.{worker as worker_of};
ghost use Rattle.machine.specs.Moves.{over};
ghost use Rattle.machine.specs.Turns.{step, turn};
ghost use Rattle.keeper.specs.Called.{outcome};
ghost use Rattle.keeper.specs.Fits.{task_fits, list_fits};
ghost use Rattle.keeper.specs.Words.{list_read};

use crate::answers::{Counted, plain};
use crate::ranges::{WorkerId, id};
use crate::tables::Tables;
use machine::HungList::{Empty, Newest, Off};
use machine::Task::{
    DropEra, DropList, DropWalk, Idle, LookAgain, LookCell, LookEra, LookList, LookWalk, LookWrite,
    TakeBlock, TakeEra, TryHang, TryLast, TryVisit,
};
use machine::{HungList, Refusal, Task};
use pools::Pool;

// The pool comes beside the tables: most steps do not touch it, so their contracts speak of the tables alone.
impl Tables {
    // What the list holds that the next step of a worker's task reads; off where it reads none. One match, by the same
    // rule as the step.
    fn list_read(&self, worker: WorkerId, task: Task) -> HungList
        requires { task_fits task ≡ true }
        ensures value { result ≡ list_read self.now.core worker.number task }
        ensures fits { list_fits result ≡ true }
    {
        match task {
            LookList { hold, .. } | DropList { hold } => { self.own(worker, id(hold)).list }
            TryHang { next, .. } => {
                let slot = self.core.blocks.rows[next as usize].slot;
                self.core.reservations[slot as usize].list
            }
            _ => Off,
        }
    }

    // Turn: a step of the worker's task.
    pub(crate) fn turn<P: Pool>(&mut self, pool: &mut P, worker: u16) -> Counted
        ensures { outcome self.new.core (P.Pool.inside pool.new) result ≡ over (turn self.old.core (P.Pool.inside pool.old) (P.Pool.next pool.old) worker) (P.Pool.inside pool.old) (P.Pool.next pool.old) }
    {
        let worker = self.worker(worker)?;
        self.step(pool, worker)
    }

    // One step of the worker's task: by the task and its stage, and by what the list holds that the step reads. One match, and no
    // table of functions, by a rule of the project.
    fn step<P: Pool>(&mut self, pool: &mut P, worker: WorkerId) -> Counted
        ensures { outcome self.new.core (P.Pool.inside pool.new) result ≡ over (step self.old.core (P.Pool.inside pool.old) (P.Pool.next pool.old) worker.number (worker_of self.old.core worker.number).task) (P.Pool.inside pool.old) (P.Pool.next pool.old) }
    {
        let task = self.core.workers[worker.number as usize].task;
        let done = match (task, self.list_read(worker, task)) {
            (Idle, _) => Err(Refusal::Idle),
            (TakeEra, _) => self.take_era(worker),
            (TakeBlock, _) => return self.take_block(pool, worker),
            (LookCell { hold, cell }, _) => self.look_cell(worker, id(hold), id(cell)),
            (LookEra { hold, cell, seen }, _) => self.look_era(worker, id(hold), id(cell), seen),
            (LookList { hold, cell, era }, Empty) => {
                self.go_on(worker, LookWrite { hold, cell, era })
            }
            (LookList { hold, cell, .. }, Off) => {
                self.relist(worker, id(hold), Empty, LookAgain { hold, cell })
            }
            (LookList { hold, cell, .. }, Newest(next)) => {
                self.relist(worker, id(hold), Empty, LookWalk { hold, cell, next })
            }
            (LookWalk { hold, cell, next }, _) => {
                return self.look_walk(pool, worker, id(hold), id(cell), id(next));
            }
            (LookAgain { hold, cell }, _) => self.look_again(worker, id(hold), id(cell)),
            (LookWrite { hold, cell, era }, _) => self.reserve(worker, id(hold), id(cell), era),
            (DropList { hold }, Newest(next)) => {
                self.relist(worker, id(hold), Off, DropWalk { hold, next })
            }
            (DropList { hold }, _) => self.relist(worker, id(hold), Off, DropEra { hold }),
            (DropWalk { hold, next }, _) => {
                return self.drop_walk(pool, worker, id(hold), id(next));
            }
            (DropEra { hold }, _) => self.drop_era(worker, id(hold)),
            (TryVisit { place, next, aside }, _) => self.visit(worker, id(place), id(next), aside),
            (TryHang { next, left, hung }, list) => self.hang(worker, id(next), left, hung, list),
            (TryLast { hung }, _) => return self.last(pool, worker, hung),
        };
        plain(done)
    }
}
