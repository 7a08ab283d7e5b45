// One move on a pool, and its answer.
ghost use Rattle.std.specs.Prelude.{◌≡◌};
ghost use Rattle.pool_runs.specs.Runs.{Right, after};

use pools::{Pool, PoolFault};

// A move: to take a number, or to give one back.
#[derive(Clone, Copy, PartialEq, Eq, Debug)]
pub enum Move {
    Take,
    Give(u16),
}

// What a move comes to: the number handed out, or that the number was taken back. Not an `Option`: the names say which move it is of.
#[derive(Clone, Copy, PartialEq, Eq, Debug)]
pub enum Outcome {
    HandedOut(u16),
    TakenBack,
}

// Makes one move, and answers what it comes to, or why it is refused.
pub fn step<P: Pool>(pool: &mut P, turn: Move) -> Result<Outcome, PoolFault>
    ensures right { Right (P.Pool.inside pool.old) turn result }
    ensures leaves { P.Pool.inside pool.new ≡ after (P.Pool.inside pool.old) turn result }
{
    // A match: each move has parameters and an answer of its own.
    match turn {
        Move::Take => Ok(Outcome::HandedOut(pool.take()?)),
        Move::Give(number) => {
            pool.give(number)?;
            Ok(Outcome::TakenBack)
        }
    }
}
