// A whole run.
ghost use Rattle.std.specs.Prelude.{◌≡◌, MatchResult};
ghost use Rattle.keeper.specs.Tables.{state};
ghost use Rattle.runs.specs.Plays.{PlayedSo, Declined};

use crate::one::ask;
use crate::outcomes::{PlayFault, Played};
use figures::Form;
use keeper::Keeper;
use machine::Call;
use pools::Pool;
use std::alloc::Global;

// Makes a keeper with these figures over the pool, does the calls in order with the table, and answers what each gave.
pub fn play<P: Pool + Drop, R: Copy>(
    heap: Global,
    form: Form,
    pool: P,
    table: &mut [R],
    calls: &[Call<R>],
) -> Result<Played<P, R>, PlayFault>
    ensures { MatchResult result (λ out. PlayedSo form (P.Pool.inside pool) table.old calls.now out.answers.items (state out.keeper.tables.core (P.Pool.inside out.keeper.pool) table.new)) (λ fault. Declined fault form (P.Pool.inside pool) table.old table.new) }
{
    let mut keeper = Keeper::make(form, pool)?;
    // Room for every answer first: a chain that collects could fail between two calls, with the keeper moved.
    let mut answers = Vec::with_capacity(heap, calls.len())?;
    for call in calls {
        let answer = ask(&mut keeper, table, *call);
        answers.push_reserved(answer);
    }
    Ok(Played { keeper, answers })
}
