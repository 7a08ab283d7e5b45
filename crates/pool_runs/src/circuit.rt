// Numbers taken from a pool and given back.
ghost use Rattle.std.specs.Prelude.{◌≡◌, IfOk};
ghost use Rattle.pool_runs.specs.Draws.{Drawn};

use pools::Pool;
use std::alloc::{AllocError, Global};

// Takes so many numbers, or as many as are in, gives them back, the first one first, and answers them.
pub fn circulate<P: Pool>(heap: Global, pool: &mut P, wanted: u16) -> Result<Vec<u16>, AllocError>
    ensures restored { P.Pool.inside pool.new ≡ P.Pool.inside pool.old }
    ensures drawn { IfOk result (λ numbers. Drawn (P.Pool.inside pool.old) wanted numbers.items) }
{
    let many = wanted.min(pool.count());
    // Room for all of them first: a chain that collects could fail with some numbers out.
    let mut numbers = Vec::with_capacity(heap, many as usize)?;
    for _ in 0..many {
        if let Ok(number) = pool.take() {
            numbers.push_reserved(number);
        }
    }
    for number in &numbers {
        let _ = pool.give(*number);
    }
    Ok(numbers)
}
