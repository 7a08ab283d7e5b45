// What a caller is told.
ghost use Rattle.std.specs.Prelude.{◌≡◌};
ghost use Rattle.machine.specs.Moves.{counted};
ghost use Rattle.keeper.specs.Called.{placed};

use machine::{KeeperFault, Refusal};

// What a step that gives no block back answers: whether the task goes on, and its value. A tuple, here and below, by a rule of the
// project for what a turn answers.
pub(crate) type Plain = Result<(bool, Option<u16>), Refusal>;

// What any step answers: with how many blocks were given back.
pub(crate) type Counted = Result<(bool, Option<u16>, u16), Refusal>;

// What a call answers: whether a task goes on, its value, and how many blocks were given back; or the fault.
pub type Told = Result<(bool, Option<u16>, u16), KeeperFault>;

// An answer of a step that gives no block back.
pub(crate) fn plain(done: Plain) -> Counted
    ensures { result ≡ counted done 0 }
{
    done.map(|(goes_on, value)| (goes_on, value, 0))
}

// A refusal is reported with the worker that was given.
pub(crate) fn placed(worker: u16, done: Counted) -> Told
    ensures { result ≡ placed worker done }
{
    done.map_err(|refusal| place(worker, refusal))
}

// A refusal of a call of the worker.
pub(crate) fn place(worker: u16, refusal: Refusal) -> KeeperFault
    ensures { result ≡ record { refusal = refusal; place = worker } }
{
    KeeperFault {
        refusal,
        place: worker,
    }
}
