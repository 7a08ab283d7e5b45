// Which numbers of a pool are in: what every pool keeps, whatever the order in which it hands them out.
ghost use Rattle.std.specs.Prelude.{◌≡◌, ◌<◌, true, false, length, replicate, slice_index_or, slice_set};
ghost use Rattle.std.specs.Result.{MatchResult};
ghost use Rattle.pools.specs.Fresh.{Fitting, Misfitting};
ghost use Rattle.pools.specs.Meaning.{given, gained, Unmoved};

use crate::{LARGEST, PoolFault};
use std::marker::Model;

// The numbers below `size`; each is in where its place in `ins` holds, and past them no place does.
#[derive(Drop)]
pub(crate) struct Numbers {
    size: u16,
    // An array within the struct, by a rule of the project for the numbers of a pool: else this would be a `Vec<bool>`.
    ins: [bool; LARGEST],
}

// Clauses see the list that says of each number whether it is in. It forgets nothing: `inverse` has the fields back.
impl Model for Numbers {
    ghost use Rattle.std.proofs.Common.{arith, length-take-le};
    ghost use Rattle.pools.specs.CountsLemmas.{tests_again};
    ghost use Rattle.std.specs.Prelude.{◌≡◌, ◌-◌, ◌≤◌, ◌++◌, Bool, false, List, length, take, drop, replicate};

    ghost Value = { List Bool };

    ghost view = { λ numbers. take numbers.size numbers.ins };

    ghost invariant = { λ numbers. (numbers.size ≤ 2048) × (length numbers.ins ≡ 2048) × (drop numbers.size numbers.ins ≡ replicate (2048 - numbers.size) false) };

    ghost inverse = { λ inside. record { size = length inside; ins = inside ++ replicate (2048 - length inside) false } };

    ghost inverse_ok = { λ numbers h. λ i. record { size = length-take-le numbers.size numbers.ins (omega (arith, h.0, h.1)) i; ins = tests_again numbers.size numbers.ins h.0 h.1 h.2 i } };
}

impl Numbers {
    // So many numbers, all in.
    pub(crate) fn new(size: u16) -> Result<Numbers, PoolFault>
        ensures { MatchResult result (λ numbers. Fitting size × (numbers ≡ replicate size true)) (λ refusal. Misfitting size refusal) }
    {
        if size == 0 || size as usize > LARGEST {
            return Err(PoolFault::Misfit);
        }
        let mut ins = [false; LARGEST];
        ins[..size as usize].fill(true);
        Ok(Numbers { size, ins })
    }

    // How many numbers there are.
    pub(crate) fn size(&self) -> u16
        ensures { result ≡ length self.now }
    {
        self.size
    }

    // Whether there is such a number, and it is in.
    pub(crate) fn is_in(&self, number: u16) -> bool
        ensures { result ≡ slice_index_or self.now number false }
    {
        number < self.size && self.ins[number as usize]
    }

    // The number goes out.
    pub(crate) fn take_out(&mut self, number: u16)
        requires { number < length self.old }
        ensures { self.new ≡ slice_set self.old number false }
    {
        self.ins[number as usize] = false;
    }

    // The number comes in, if it is out.
    pub(crate) fn put_in(&mut self, number: u16) -> Result<(), PoolFault>
        ensures answer { result ≡ given self.old number }
        ensures leaves { self.new ≡ gained self.old number }
        ensures unmoved { Unmoved result self.old self.new }
    {
        if number >= self.size || self.ins[number as usize] {
            return Err(PoolFault::NotOut);
        }
        self.ins[number as usize] = true;
        Ok(())
    }
}
