// The stack: it hands out the number given last.
ghost use Rattle.std.specs.Prelude.{◌≡◌, ◌≤◌, ◌∷◌, length, IfOk, OnOk};
ghost use Rattle.pools.specs.Orders.{first, stacked, Listed};
ghost use Rattle.pools.specs.Meaning.{taken, left, given, gained, Unmoved};
ghost use Rattle.pools.specs.Fresh.{Made};
ghost use Rattle.pools.specs.OrdersLemmas.{first_in};

use crate::fresh::own_places;
use crate::numbers::Numbers;
use crate::{LARGEST, Pool, PoolFault};

// The numbers in stand in `spots` from `top` up to the size, the one given last first.
#[derive(Drop)]
pub struct Stack {
    top: u16,
    // An array within the struct, by a rule of the project for the numbers of a pool: else `spots` and `top` would be a `Vec`.
    spots: [u16; LARGEST],
    // Last: before them, the kit's compiler takes a write of one of its tests for one of `top`, and reads that again.
    numbers: Numbers,
    ghost fits: { (top ≤ length numbers) × (length numbers ≤ 2048) },
    ghost listed: { Listed (stacked (length numbers) top spots) numbers },
}

impl Stack {
    ghost use Rattle.pools.specs.Stacks.{members, order};

    // A stack of this size with all its numbers in, which it hands out from 0 on.
    pub fn new(size: u16) -> Result<Stack, PoolFault>
        ensures { Made members order size result }
    {
        Ok(Stack {
            numbers: Numbers::new(size)?,
            top: 0,
            spots: own_places(),
        })
    }
}

// The trait's clauses stand here again: an `impl` that has clauses replaces them, and there is one more, on the order.
impl Pool for Stack {
    ghost use Rattle.pools.specs.Stacks.{members, order};

    ghost inside = { members };

    ghost next = { λ stack. first (order stack) };

    ghost limited = { λ pool. pool.fits.1 };

    ghost chosen = { λ pool some. first_in (order pool) (members pool) pool.listed some };

    fn size(&self) -> u16 {
        self.numbers.size()
    }

    fn count(&self) -> u16 {
        self.numbers.size() - self.top
    }

    fn is_in(&self, number: u16) -> bool {
        self.numbers.is_in(number)
    }

    fn take(&mut self) -> Result<u16, PoolFault>
        ensures answer { result ≡ taken (members self.old) (first (order self.old)) }
        ensures leaves { members self.new ≡ left (members self.old) (first (order self.old)) }
        ensures unmoved { Unmoved result self.old self.new }
        ensures order { IfOk result (λ n. order self.old ≡ n ∷ order self.new) }
    {
        if self.top == self.numbers.size() {
            return Err(PoolFault::NoneIn);
        }
        let number = self.spots[self.top as usize];
        self.numbers.take_out(number);
        self.top += 1;
        Ok(number)
    }

    fn give(&mut self, number: u16) -> Result<(), PoolFault>
        ensures answer { result ≡ given (members self.old) number }
        ensures leaves { members self.new ≡ gained (members self.old) number }
        ensures unmoved { Unmoved result self.old self.new }
        ensures order { OnOk result (order self.new ≡ number ∷ order self.old) }
    {
        self.numbers.put_in(number)?;
        self.top -= 1;
        self.spots[self.top as usize] = number;
        Ok(())
    }
}
