// A worker moves on to another task, or to another stage of its task.
ghost use Rattle.std.specs.Prelude.{◌≡◌, true, None};
ghost use Rattle.machine.specs.State.{with_task, idle, place_of};
ghost use Rattle.machine.specs.Moves.{goes_on, ends};
ghost use Rattle.machine.specs.Looking.{own_reservation, with_list, with_own_era, with_shown};
ghost use Rattle.keeper.specs.Called.{plain};
ghost use Rattle.keeper.specs.Fits.{task_fits, list_fits};

use crate::answers::Plain;
use crate::ranges::{HoldId, Place, WorkerId, id};
use crate::tables::Tables;
use machine::{HungList, Refusal, Reservation, Task, Worker};

impl Tables {
    // The place of the reservation of a worker's hold.
    pub(crate) fn place_of(&self, worker: WorkerId, hold: HoldId) -> Place
        ensures { result.number ≡ place_of self.now.core worker.number hold.number }
    {
        id(worker.number * self.core.form.holds + hold.number)
    }

    // The reservation of a worker's hold.
    pub(crate) fn own(&self, worker: WorkerId, hold: HoldId) -> Reservation
        ensures { result ≡ own_reservation self.now.core worker.number hold.number }
    {
        let place = self.place_of(worker, hold);
        self.core.reservations[place.number as usize]
    }

    // The era of that becomes another.
    pub(crate) fn put_era(&mut self, worker: WorkerId, hold: HoldId, era: u32)
        ensures { self.new.core ≡ with_own_era self.old.core worker.number hold.number era }
    {
        let own = self.own(worker, hold);
        let place = self.place_of(worker, hold);
        self.put_reservation(place, Reservation { era, ..own });
    }

    // The worker's hold shows something else, and the worker has another task.
    pub(crate) fn show(&mut self, worker: WorkerId, hold: HoldId, shown: Option<u16>, task: Task)
        requires { task_fits task ≡ true }
        ensures { self.new.core ≡ with_shown self.old.core worker.number hold.number shown task }
    {
        let mut me = self.core.workers[worker.number as usize];
        me.shows[hold.number as usize] = shown;
        me.task = task;
        self.put_worker(worker, me);
    }

    // The worker has another task.
    pub(crate) fn go_on(&mut self, worker: WorkerId, task: Task) -> Plain
        requires { task_fits task ≡ true }
        ensures { plain self.new.core result ≡ goes_on (with_task self.old.core worker.number task) }
    {
        self.put_task(worker, task);
        Ok((true, None))
    }

    // The worker's task is over, with no value.
    pub(crate) fn end(&mut self, worker: WorkerId) -> Plain
        ensures { plain self.new.core result ≡ ends (idle self.old.core worker.number) None }
    {
        self.put_task(worker, Task::Idle);
        Ok((false, None))
    }

    // The list of the worker's hold becomes another, and the worker has another task.
    pub(crate) fn relist(
        &mut self,
        worker: WorkerId,
        hold: HoldId,
        list: HungList,
        task: Task,
    ) -> Plain
        requires list { list_fits list ≡ true }
        requires task { task_fits task ≡ true }
        ensures { plain self.new.core result ≡ goes_on (with_task (with_list self.old.core worker.number hold.number list) worker.number task) }
    {
        let own = self.own(worker, hold);
        let place = self.place_of(worker, hold);
        self.put_reservation(place, Reservation { list, ..own });
        self.go_on(worker, task)
    }
}
