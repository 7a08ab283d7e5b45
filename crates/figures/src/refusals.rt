ghost use Rattle.std.specs.Prelude.{◌≡◌, Some};
ghost use Rattle.faults.specs.Printed.{printed};
ghost use Rattle.figures.specs.Refusals.{fault};

use crate::limits::Figure;
use faults::{Fault, Layer};
use std::fmt;

// Why figures are refused.
#[derive(Clone, Copy, PartialEq, Eq, Debug)]
pub enum Refusal {
    // This figure is the first of its form that is outside its limits.
    Misfit(Figure),
}

impl From<Refusal> for Fault {
    ghost from_gives = { λ refusal r. r ≡ fault refusal };

    fn from(refusal: Refusal) -> Fault {
        // A `match`: a variant that carries something is no number by `as`.
        let number = match refusal {
            Refusal::Misfit(_) => 1,
        };
        Fault {
            layer: Layer::Keeper,
            number,
            place: 0,
        }
    }
}

// Each layer writes this itself: see `faults`.
impl fmt::Display for Refusal {
    ghost output = { λ refusal. Some (printed (fault refusal)) };

    fn fmt<W: fmt::Write>(&self, f: &mut fmt::Formatter<W>) -> fmt::Result {
        write!(f, "{}", Fault::from(*self))
    }
}
