// Playing a run.
ghost use Rattle.std.specs.Prelude.{◌≡◌, [], ◌∷◌, replicate, IfOk, MatchResult};
ghost use Rattle.pools.specs.Refusals.{fault};
ghost use Rattle.bench.specs.Lines.{lines_from, refused_line};
ghost use Rattle.bench.specs.PrintedRuns.{PrintedRun};

use crate::lines::Line;
use crate::scripts::{Calls, PoolKind, Script};
use faults::Fault;
use figures::Form;
use machine::{Answer, Call, KeeperFault};
use pools::{Pool, PoolFault, Row, Stack};
use records::{Kind, fresh_table};
use runs::{PlayFault, play};
use std::alloc::{AllocError, Global};

// A line for each answer, numbered from 0 on.
fn numbered<K: Kind>(
    heap: Global,
    answers: &[Result<Answer<K>, KeeperFault>],
) -> Result<Vec<Line>, AllocError>
    ensures { IfOk result (λ lines. lines.items ≡ lines_from K.Kind.encoded 0 answers.now) }
{
    answers
        .iter()
        .enumerate()
        .map(|(number, answer)| Line::of(number, *answer))
        .collect(heap)
}

// The line of a making that is refused, which is all that is printed then.
fn refused_alone(heap: Global, refused: Fault) -> Result<Vec<Line>, AllocError>
    ensures { IfOk result (λ lines. lines.items ≡ refused_line refused ∷ []) }
{
    Ok(vec![in heap; Line::of_making(refused)]?)
}

// The lines of a run: that of a refused making, of the pool or of the keeper, or one for each call.
fn lines_over<P: Pool + Drop, K: Kind>(
    heap: Global,
    form: Form,
    made: Result<P, PoolFault>,
    calls: &[Call<K>],
) -> Result<Vec<Line>, AllocError>
    ensures { IfOk result (λ lines. MatchResult made (λ pool. PrintedRun K.Kind.encoded form (P.Pool.inside pool) (replicate form.blocks K.Kind.blank) calls.now lines.items) (λ refused. lines.items ≡ refused_line (fault refused) ∷ [])) }
{
    let pool = match made {
        Ok(pool) => pool,
        Err(refused) => return refused_alone(heap, Fault::from(refused)),
    };
    let mut table = fresh_table::<K>(heap, usize::from(form.blocks))?;
    match play(heap, form, pool, table.as_mut_slice(), calls) {
        Ok(played) => numbered(heap, played.answers.as_slice()),
        Err(PlayFault::Refused(refused)) => refused_alone(heap, Fault::from(refused)),
        Err(PlayFault::NoMemory(error)) => Err(error),
    }
}

// The lines of a run with calls on records of one kind.
fn lines_on<K: Kind>(
    heap: Global,
    script: &Script,
    calls: &[Call<K>],
) -> Result<Vec<Line>, AllocError> {
    let form = script.form;
    match script.pool {
        PoolKind::Stack => lines_over(heap, form, Stack::new(form.blocks), calls),
        PoolKind::Row => lines_over(heap, form, Row::new(form.blocks), calls),
    }
}

// The lines of a run.
pub fn lines_of(heap: Global, script: &Script) -> Result<Vec<Line>, AllocError> {
    match &script.calls {
        Calls::OnReadings(calls) => lines_on(heap, script, calls.as_slice()),
        Calls::OnBranches(calls) => lines_on(heap, script, calls.as_slice()),
    }
}
