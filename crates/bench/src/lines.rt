// The line that is printed of a call: its number, what became of it, the value, and the blocks given back.
ghost use Rattle.std.specs.Prelude.{◌≡◌, Some, codes};
ghost use Rattle.std.specs.Option.{option_map_or};
ghost use Rattle.machine.specs.Runs.{line};
ghost use Rattle.bench.specs.Lines.{shown_as, status_number, line_of, refused_line, status_text, shown_text, line_text};

use faults::Fault;
use machine::{Answer, KeeperFault, Value};
use records::{Hex, Kind};
use std::fmt;

// What is printed of a value, or - for none.
#[derive(Clone, Copy)]
struct OrDash<T>(Option<T>);

impl<T: fmt::Display> fmt::Display for OrDash<T> {
    ghost output = { λ shown. option_map_or T.output shown.0 (Some (codes "-")) };

    fn fmt<W: fmt::Write>(&self, f: &mut fmt::Formatter<W>) -> fmt::Result {
        match &self.0 {
            None => f.write_str("-"),
            Some(value) => write!(f, "{value}"),
        }
    }
}

// What became of a call: it is finished, its task goes on, or it is refused.
#[derive(Clone, Copy)]
pub enum Status {
    Finished,
    GoesOn,
    Refused(Fault),
}

impl Status {
    // The number that is printed of it: a `match`, since a variant that carries something is no number by `as`.
    fn number(self) -> u16
        ensures { result ≡ status_number self }
    {
        match self {
            Status::Finished => 0,
            Status::GoesOn => 1,
            Status::Refused(refused) => 100 + u16::from(refused.number),
        }
    }
}

impl fmt::Display for Status {
    ghost output = { λ status. Some (status_text status) };

    fn fmt<W: fmt::Write>(&self, f: &mut fmt::Formatter<W>) -> fmt::Result {
        write!(f, "{}", self.number())
    }
}

// A value that is printed: a block's number, or the bytes of a record.
#[derive(Clone, Copy)]
pub enum Shown {
    Number(u16),
    Bytes([u8; 8]),
}

impl<K: Kind> From<Value<K>> for Shown {
    ghost from_gives = { λ value r. r ≡ shown_as K.Kind.encoded value };

    fn from(value: Value<K>) -> Shown {
        match value {
            Value::Block(block) => Shown::Number(block),
            Value::Record(found) => Shown::Bytes(found.encode()),
        }
    }
}

impl fmt::Display for Shown {
    ghost output = { λ value. Some (shown_text value) };

    fn fmt<W: fmt::Write>(&self, f: &mut fmt::Formatter<W>) -> fmt::Result {
        match *self {
            Shown::Number(block) => write!(f, "{block}"),
            Shown::Bytes(bytes) => write!(f, "{}", Hex(bytes)),
        }
    }
}

// A line: of a call, or of a making that is refused, which has no number.
#[derive(Clone, Copy)]
pub struct Line {
    pub call: Option<usize>,
    pub status: Status,
    pub value: Option<Shown>,
    pub given: u16,
}

impl fmt::Display for Line {
    ghost output = { λ line. Some (line_text line) };

    fn fmt<W: fmt::Write>(&self, f: &mut fmt::Formatter<W>) -> fmt::Result {
        let Line {
            call,
            status,
            value,
            given,
        } = *self;
        write!(f, "{} {status} {} {given}", OrDash(call), OrDash(value))
    }
}

impl Line {
    // The line of a making that is refused.
    pub fn of_making(refused: Fault) -> Line
        ensures { result ≡ refused_line refused }
    {
        Line {
            call: None,
            status: Status::Refused(refused),
            value: None,
            given: 0,
        }
    }

    // The line of the call with a number, by what it answered.
    pub fn of<K: Kind>(number: usize, reply: Result<Answer<K>, KeeperFault>) -> Line
        ensures line { result ≡ line_of K.Kind.encoded number reply }
        ensures status { status_number result.status ≡ (line reply).status }
    {
        let call = Some(number);
        match reply {
            Ok(answer) => Line {
                call,
                status: if answer.goes_on {
                    Status::GoesOn
                } else {
                    Status::Finished
                },
                value: answer.value.map(Shown::from),
                given: answer.given,
            },
            Err(refused) => Line {
                call,
                ..Line::of_making(Fault::from(refused))
            },
        }
    }
}
