// Why a keeper refuses.
ghost use Rattle.std.specs.Prelude.{◌≡◌, Some};
ghost use Rattle.faults.specs.Printed.{printed};
ghost use Rattle.machine.specs.declared.refusals.Refusal.TheVariants.{Dry};
ghost use Rattle.machine.specs.Refusals.{fault};

use faults::{Fault, Layer};
use pools::PoolFault;
use std::fmt;

// Why a call or a task is refused.
#[derive(Clone, Copy, PartialEq, Eq, Debug)]
pub enum Refusal {
    // A figure, the pool or the record table's length is wrong.
    Misfit,
    // A worker, hold, cell or block that is given does not exist.
    Stranger,
    // The worker has a task.
    Busy,
    // The worker has no task.
    Idle,
    // The block is not in the hand that it should be in.
    OutOfHand,
    // The block is not live.
    Withdrawn,
    // An anchor or a live block's link names the block.
    Linked,
    // As many blocks are live as may be.
    Full,
    // The pool refused, and why.
    Dry(PoolFault),
    // The era is at its end.
    EraSpent,
    // The new block is the cell's own.
    SelfLink,
    // The cell does not hold what was expected.
    Moved,
}

impl From<PoolFault> for Refusal {
    ghost from_gives = { λ refused r. r ≡ Dry refused };

    fn from(refused: PoolFault) -> Refusal {
        Refusal::Dry(refused)
    }
}

// A refusal and where it happened: the worker that was given, or 0 for the making.
#[derive(Clone, Copy, PartialEq, Eq, Debug)]
pub struct KeeperFault {
    pub refusal: Refusal,
    pub place: u16,
}

impl From<KeeperFault> for Fault {
    ghost from_gives = { λ refused r. r ≡ fault refused };

    fn from(refused: KeeperFault) -> Fault {
        // A `match`: a variant that carries something, as `Dry` does, is no number by `as`.
        let number = match refused.refusal {
            Refusal::Misfit => 1,
            Refusal::Stranger => 2,
            Refusal::Busy => 3,
            Refusal::Idle => 4,
            Refusal::OutOfHand => 5,
            Refusal::Withdrawn => 6,
            Refusal::Linked => 7,
            Refusal::Full => 8,
            Refusal::Dry(_) => 9,
            Refusal::EraSpent => 10,
            Refusal::SelfLink => 11,
            Refusal::Moved => 12,
        };
        Fault {
            layer: Layer::Keeper,
            number,
            place: refused.place,
        }
    }
}

// Each layer writes this itself: see `faults`.
impl fmt::Display for KeeperFault {
    ghost output = { λ refused. Some (printed (fault refused)) };

    fn fmt<W: fmt::Write>(&self, f: &mut fmt::Formatter<W>) -> fmt::Result {
        write!(f, "{}", Fault::from(*self))
    }
}
