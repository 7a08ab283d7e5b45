// A run of moves on a pool.
ghost use Rattle.std.specs.Prelude.{◌≡◌, MatchResult};
ghost use Rattle.pool_runs.specs.Law.{Played};

use crate::moves::{Move, Outcome, step};
use pools::{Pool, PoolFault};
use std::alloc::{AllocError, Global};

// Makes the moves in order, and answers what each of them answered.
pub fn play<P: Pool>(
    heap: Global,
    pool: &mut P,
    moves: &[Move],
) -> Result<Vec<Result<Outcome, PoolFault>>, AllocError>
    ensures { MatchResult result (λ answers. Played (P.Pool.inside pool.old) moves.now answers.items (P.Pool.inside pool.new)) (λ _. pool.new ≡ pool.old) }
{
    // Room for every answer first: a chain that collects could fail between two moves, with the pool moved.
    let mut answers = Vec::with_capacity(heap, moves.len())?;
    for turn in moves {
        let answer = step(pool, *turn);
        answers.push_reserved(answer);
    }
    Ok(answers)
}
