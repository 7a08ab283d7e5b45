// One call of any kind.
ghost use Rattle.std.specs.Prelude.{◌≡◌, Ok};
ghost use Rattle.machine.specs.Machine.{after, finished};
ghost use Rattle.keeper.specs.Tables.{state};
ghost use Rattle.runs.specs.Replies.{reply_of};

use keeper::{Keeper, Told};
use machine::{Answer, Call, KeeperFault, Value};
use pools::Pool;

// What a keeper answers, a flag, a value and a count, with a block as its value.
fn with_block<R: Copy>(done: Told) -> Result<Answer<R>, KeeperFault>
    ensures { result ≡ reply_of done }
{
    let (goes_on, value, given) = done?;
    let value = value.map(|block| -> Value<R> { Value::Block(block) });
    Ok(Answer {
        goes_on,
        value,
        given,
    })
}

// The answer of a call that is finished with a value.
fn finished<R: Copy>(value: Option<Value<R>>) -> Answer<R>
    ensures { Ok result ≡ finished value }
{
    Answer {
        goes_on: false,
        value,
        given: 0,
    }
}

// Does one call, with a table of records. A match is plainest: each call has parameters and a kind of answer of its own.
#[tactic(auto, using(crate::proofs::Asked::placed_told))]
pub fn ask<P: Pool, R: Copy>(
    keeper: &mut Keeper<P>,
    table: &mut [R],
    call: Call<R>,
) -> Result<Answer<R>, KeeperFault>
    ensures to { state keeper.new.tables.core (P.Pool.inside keeper.new.pool) table.new ≡ (after (state keeper.old.tables.core (P.Pool.inside keeper.old.pool) table.old) call (P.Pool.next keeper.old.pool)).to }
    ensures reply { result ≡ (after (state keeper.old.tables.core (P.Pool.inside keeper.old.pool) table.old) call (P.Pool.next keeper.old.pool)).reply }
{
    match call {
        Call::Take { worker } => with_block(keeper.take(worker)),
        Call::Look { worker, hold, cell } => with_block(keeper.look(worker, hold, cell)),
        Call::Drop { worker } => with_block(keeper.drop(worker)),
        Call::Retire { worker, block } => with_block(keeper.retire(worker, block)),
        Call::Relink {
            worker,
            cell,
            expected,
            new,
        } => with_block(keeper.relink(worker, cell, expected, new)),
        Call::Write {
            worker,
            block,
            value,
        } => {
            keeper.write(table, worker, block, value)?;
            Ok(finished(None))
        }
        Call::Read { worker, hold } => {
            let found = keeper.read(table, worker, hold)?;
            Ok(finished(Some(Value::Record(found))))
        }
        Call::Turn { worker } => with_block(keeper.turn(worker)),
    }
}
