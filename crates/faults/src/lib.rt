// What is reported of a refusal, the same for every layer.
//
// A layer has an enum of its own refusals, one definition in its specs/ that sets out each one's number, and a
// `From` into `Fault`. To add a layer, add its name to `Layer`.
//
// Each layer writes its `From` and its `Display` itself: an `impl` for all of them at once would overlap with those that std has,
// and a macro may not write one.
#![tactic(auto)]

ghost use Rattle.std.specs.Prelude.{Some};
ghost use Rattle.faults.specs.Printed.{word, printed};

use std::fmt;

// The layer that refused.
#[derive(Clone, Copy, PartialEq, Eq, Debug)]
pub enum Layer {
    Record,
    Keeper,
    Pool,
}

impl fmt::Display for Layer {
    ghost output = { λ layer. Some (word layer) };

    fn fmt<W: fmt::Write>(&self, f: &mut fmt::Formatter<W>) -> fmt::Result {
        match self {
            Layer::Record => f.write_str("record"),
            Layer::Keeper => f.write_str("keeper"),
            Layer::Pool => f.write_str("pool"),
        }
    }
}

// A refusal's layer, its number, and its place: which byte, which worker, or 0 where there is nothing to point at.
#[derive(Clone, Copy, PartialEq, Eq, Debug)]
pub struct Fault {
    pub layer: Layer,
    pub number: u8,
    pub place: u16,
}

impl fmt::Display for Fault {
    ghost output = { λ fault. Some (printed fault) };

    fn fmt<W: fmt::Write>(&self, f: &mut fmt::Formatter<W>) -> fmt::Result {
        let Fault {
            layer,
            number,
            place,
        } = *self;
        write!(f, "{layer} {number} {place}")
    }
}
