// Why eight bytes are no record.
ghost use Rattle.std.specs.Prelude.{◌≡◌, Some};
ghost use Rattle.faults.specs.Printed.{printed};
ghost use Rattle.records.specs.Refusals.{fault};

use faults::{Fault, Layer};
use std::fmt;

// The first field that is wrong.
#[derive(Clone, Copy, PartialEq, Eq, Debug)]
pub enum RecordFault {
    // Byte 0 of a reading names none of the four sorts.
    UnknownSort,
    // A byte between a reading's sort and its value is not 0.
    GapNotZero,
    // The value of a reading is none that its sort has.
    WrongValue,
    // A byte after a branch's channels is not 0.
    TailNotZero,
}

impl RecordFault {
    // The byte at which the wrong field starts: a `match`, since numbers of the variants would say that no two fields,
    // of whichever kinds, start at the same byte.
    fn place(self) -> u16
        ensures { result ≡ (fault self).place }
    {
        match self {
            RecordFault::UnknownSort => 0,
            RecordFault::GapNotZero => 1,
            RecordFault::WrongValue => 4,
            RecordFault::TailNotZero => 3,
        }
    }
}

impl From<RecordFault> for Fault {
    ghost from_gives = { λ refusal r. r ≡ fault refusal };

    fn from(refusal: RecordFault) -> Fault {
        Fault {
            layer: Layer::Record,
            number: 16,
            place: refusal.place(),
        }
    }
}

// Each layer writes this itself: see `faults`.
impl fmt::Display for RecordFault {
    ghost output = { λ refusal. Some (printed (fault refusal)) };

    fn fmt<W: fmt::Write>(&self, f: &mut fmt::Formatter<W>) -> fmt::Result {
        write!(f, "{}", Fault::from(*self))
    }
}
