// The sorts of reading.
ghost use Rattle.records.specs.Sorts.{IsSortOf};

use crate::refusals::RecordFault;

// What a reading holds; the number of a sort is the byte that names it.
#[derive(Clone, Copy, PartialEq, Eq, Debug)]
pub(crate) enum Sort {
    Missing = 0,
    Analogue = 1,
    Counter = 2,
    State = 3,
}

impl TryFrom<u8> for Sort {
    type Error = RecordFault;

    ghost try_from_gives = { IsSortOf };

    fn try_from(byte: u8) -> Result<Sort, RecordFault> {
        match byte {
            0 => Ok(Sort::Missing),
            1 => Ok(Sort::Analogue),
            2 => Ok(Sort::Counter),
            3 => Ok(Sort::State),
            _ => Err(RecordFault::UnknownSort),
        }
    }
}
