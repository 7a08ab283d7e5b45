// The row: it hands out the number that has been in longest.
ghost use Rattle.std.specs.Prelude.{◌≡◌, ◌<◌, ◌≤◌, [], ◌∷◌, ◌++◌, length, IfOk, OnOk};
ghost use Rattle.pools.specs.Orders.{first, ringed, Listed};
ghost use Rattle.pools.specs.Meaning.{taken, left, given, gained, Unmoved};
ghost use Rattle.pools.specs.Fresh.{Made};
ghost use Rattle.pools.specs.OrdersLemmas.{first_in};

use crate::fresh::own_places;
use crate::numbers::Numbers;
use crate::{LARGEST, Pool, PoolFault};

// The numbers in stand in the ring `spots`, `held` of them from `head` on, the one in longest first.
#[derive(Drop)]
pub struct Row {
    head: u16,
    held: u16,
    // An array within the struct, by a rule of the project for the numbers of a pool: else `spots`, `head` and `held` would be a `VecDeque`.
    spots: [u16; LARGEST],
    // Last: before them, the kit's compiler takes a write of one of its tests for one of `head` or `held`, and reads these again.
    numbers: Numbers,
    ghost fits: { (head < 2048) × (held ≤ length numbers) × (length numbers ≤ 2048) },
    ghost listed: { Listed (ringed spots head held) numbers },
}

impl Row {
    ghost use Rattle.pools.specs.Rows.{members, order};

    // A row of this size with all its numbers in, which it hands out from 0 on.
    pub fn new(size: u16) -> Result<Row, PoolFault>
        ensures { Made members order size result }
    {
        Ok(Row {
            numbers: Numbers::new(size)?,
            head: 0,
            held: size,
            spots: own_places(),
        })
    }
}

// The trait's clauses stand here again: an `impl` that has clauses replaces them, and there is one more, on the order.
impl Pool for Row {
    ghost use Rattle.pools.specs.Rows.{members, order};

    ghost inside = { members };

    ghost next = { λ row. first (order row) };

    ghost limited = { λ pool. pool.fits.2 };

    ghost chosen = { λ pool some. first_in (order pool) (members pool) pool.listed some };

    fn size(&self) -> u16 {
        self.numbers.size()
    }

    fn count(&self) -> u16 {
        self.held
    }

    fn is_in(&self, number: u16) -> bool {
        self.numbers.is_in(number)
    }

    fn take(&mut self) -> Result<u16, PoolFault>
        ensures answer { result ≡ taken (members self.old) (first (order self.old)) }
        ensures leaves { members self.new ≡ left (members self.old) (first (order self.old)) }
        ensures unmoved { Unmoved result self.old self.new }
        ensures order { IfOk result (λ n. order self.old ≡ n ∷ order self.new) }
    {
        if self.held == 0 {
            return Err(PoolFault::NoneIn);
        }
        let number = self.spots[self.head as usize];
        self.numbers.take_out(number);
        self.head = (self.head + 1) % LARGEST as u16;
        self.held -= 1;
        Ok(number)
    }

    fn give(&mut self, number: u16) -> Result<(), PoolFault>
        ensures answer { result ≡ given (members self.old) number }
        ensures leaves { members self.new ≡ gained (members self.old) number }
        ensures unmoved { Unmoved result self.old self.new }
        ensures order { OnOk result (order self.new ≡ order self.old ++ number ∷ []) }
    {
        self.numbers.put_in(number)?;
        let end = (self.head as usize + self.held as usize) % LARGEST;
        self.spots[end] = number;
        self.held += 1;
        Ok(())
    }
}
