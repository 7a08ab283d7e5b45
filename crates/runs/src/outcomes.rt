// What playing a run comes to.
ghost use Rattle.std.specs.Prelude.{◌≡◌};
ghost use Rattle.runs.specs.declared.outcomes.PlayFault.TheVariants.{Refused, NoMemory};

use keeper::Keeper;
use machine::{Answer, KeeperFault};
use std::alloc::AllocError;

// Why nothing was played: the making was refused, or there is no memory for the answers.
#[derive(Clone, Copy, PartialEq, Eq, Debug)]
pub enum PlayFault {
    Refused(KeeperFault),
    NoMemory(AllocError),
}

impl From<KeeperFault> for PlayFault {
    ghost from_gives = { λ refused r. r ≡ Refused refused };

    fn from(refused: KeeperFault) -> PlayFault {
        PlayFault::Refused(refused)
    }
}

impl From<AllocError> for PlayFault {
    ghost from_gives = { λ error r. r ≡ NoMemory error };

    fn from(error: AllocError) -> PlayFault {
        PlayFault::NoMemory(error)
    }
}

// The keeper at the end, and what each call answered.
#[derive(Drop)]
pub struct Played<P, R> {
    pub keeper: Keeper<P>,
    pub answers: Vec<Result<Answer<R>, KeeperFault>>,
}
