// Pools of numbers: what a pool is, whatever number it hands out next, and two pools, a stack and a row.
#![tactic(auto)]

mod fresh;
mod numbers;
mod row;
mod stack;

ghost use Rattle.std.specs.Prelude.{◌≡◌, ℕ, ◌<◌, ◌≤◌, Bool, true, false, List, length, Some, slice_index_or};
ghost use Rattle.faults.specs.Printed.{printed};
ghost use Rattle.pools.specs.Counts.{tally};
ghost use Rattle.pools.specs.Meaning.{taken, left, given, gained, Unmoved};
ghost use Rattle.pools.specs.Refusals.{fault};

use faults::{Fault, Layer};
pub use row::Row;
pub use stack::Stack;
use std::fmt;

// The most numbers that a pool can have.
pub const LARGEST: usize = 2048;

// Why a pool refuses: its size is wrong, it has no number in, or a number given to it is not out.
#[derive(Clone, Copy, PartialEq, Eq, Debug)]
pub enum PoolFault {
    Misfit,
    NoneIn,
    NotOut,
}

// A refusal as it is reported.
impl From<PoolFault> for Fault {
    ghost from_gives = { λ refusal r. r ≡ fault refusal };

    fn from(refusal: PoolFault) -> Fault {
        // A `match`, and not discriminants of the enum: those must differ, so a program that gives two refusals one number,
        // as an edit of must-fail/ does, could not even be written.
        let number = match refusal {
            PoolFault::Misfit => 1,
            PoolFault::NoneIn => 17,
            PoolFault::NotOut => 18,
        };
        Fault {
            layer: Layer::Pool,
            number,
            place: 0,
        }
    }
}

// A refusal prints as it is reported: layer, number, place. Each layer writes this itself: see `faults`.
impl fmt::Display for PoolFault {
    ghost output = { λ refusal. Some (printed (fault refusal)) };

    fn fmt<W: fmt::Write>(&self, f: &mut fmt::Formatter<W>) -> fmt::Result {
        write!(f, "{}", Fault::from(*self))
    }
}

// A pool has the numbers below its size, and its meaning is which of them are in.
pub trait Pool {
    // For each number of the pool, whether it is in.
    ghost inside: { Self → List Bool };

    // The number that is handed out next, if any is in: the pool's own choice.
    ghost next: { Self → ℕ };

    // How many numbers the pool has.
    fn size(&self) -> u16
        ensures { result ≡ length (inside self.now) };

    // How many of them are in.
    fn count(&self) -> u16
        ensures { result ≡ tally (inside self.now) };

    // Whether the number is in; one that the pool does not have is not.
    fn is_in(&self, number: u16) -> bool
        ensures { result ≡ slice_index_or (inside self.now) number false };

    // Hands out a number that is in.
    fn take(&mut self) -> Result<u16, PoolFault>
        ensures answer { result ≡ taken (inside self.old) (next self.old) }
        ensures leaves { inside self.new ≡ left (inside self.old) (next self.old) }
        ensures unmoved { Unmoved result self.old self.new };

    // Takes back a number that is out.
    fn give(&mut self, number: u16) -> Result<(), PoolFault>
        ensures answer { result ≡ given (inside self.old) number }
        ensures leaves { inside self.new ≡ gained (inside self.old) number }
        ensures unmoved { Unmoved result self.old self.new };

    // A pool has at most 2,048 numbers.
    ghost limited: { (pool : Self) → length (inside pool) ≤ 2048 };

    // Where any is in, the next one is.
    ghost chosen: { (pool : Self) → 0 < tally (inside pool) → slice_index_or (inside pool) (next pool) false ≡ true };
}
