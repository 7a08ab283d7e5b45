// What is printed for a line.
ghost use Rattle.std.specs.Prelude.{◌≡◌, Some};
ghost use Rattle.records_lines.specs.declared.answers.LineFault.TheVariants.{Refused};
ghost use Rattle.records_lines.specs.Answers.{answer_to, printed_fault, printed_answer};

use crate::lines::{Entry, parse};
use records::{Branch, Hex, Reading, RecordFault, recoded};
use std::fmt;

// Why no record comes of a line.
#[derive(Clone, Copy, PartialEq, Eq, Debug)]
pub enum LineFault {
    // The line with this number writes no entry.
    Malformed(u64),
    // The bytes are no record of that kind.
    Refused(RecordFault),
}

impl From<RecordFault> for LineFault {
    ghost from_gives = { λ refusal fault. fault ≡ Refused refusal };

    fn from(refusal: RecordFault) -> LineFault {
        LineFault::Refused(refusal)
    }
}

impl fmt::Display for LineFault {
    ghost output = { λ fault. Some (printed_fault fault) };

    fn fmt<W: fmt::Write>(&self, f: &mut fmt::Formatter<W>) -> fmt::Result {
        match *self {
            LineFault::Malformed(number) => write!(
                f,
                "line {number}: not 1 or 2, one blank and sixteen hexadecimal digits"
            ),
            LineFault::Refused(refusal) => write!(f, "{refusal}"),
        }
    }
}

// The bytes of the record that is decoded of the line with a number, encoded again.
pub fn reply(number: u64, line: &[u8]) -> Result<[u8; 8], LineFault>
    ensures { result ≡ answer_to number line.now }
{
    let bytes = match parse(line).ok_or(LineFault::Malformed(number))? {
        Entry::Reading(bytes) => recoded::<Reading>(&bytes)?,
        Entry::Branch(bytes) => recoded::<Branch>(&bytes)?,
    };
    Ok(bytes)
}

// What came of a line, as it is printed.
#[derive(Clone, Copy)]
pub struct Answer(pub Result<[u8; 8], LineFault>);

impl fmt::Display for Answer {
    ghost output = { λ answer. Some (printed_answer answer.0) };

    fn fmt<W: fmt::Write>(&self, f: &mut fmt::Formatter<W>) -> fmt::Result {
        match self.0 {
            Ok(bytes) => write!(f, "ok {}", Hex(bytes)),
            Err(fault) => write!(f, "{fault}"),
        }
    }
}
