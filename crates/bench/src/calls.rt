// Calls as they are written.
use crate::words::{number, number_or_none};
use machine::Call;
use records::{Kind, eight_bytes};

// The record that sixteen digits write.
fn record_of<K: Kind>(digits: &str) -> Option<K> {
    let bytes = eight_bytes(digits.as_bytes())?;
    K::decode(&bytes).ok()
}

// The call that words write.
pub fn call_of<K: Kind>(words: &[&str]) -> Option<Call<K>> {
    match words {
        ["take", worker] => Some(Call::Take {
            worker: number(worker)?,
        }),
        ["drop", worker] => Some(Call::Drop {
            worker: number(worker)?,
        }),
        ["turn", worker] => Some(Call::Turn {
            worker: number(worker)?,
        }),
        ["retire", worker, block] => Some(Call::Retire {
            worker: number(worker)?,
            block: number(block)?,
        }),
        ["read", worker, hold] => Some(Call::Read {
            worker: number(worker)?,
            hold: number(hold)?,
        }),
        ["look", worker, hold, cell] => Some(Call::Look {
            worker: number(worker)?,
            hold: number(hold)?,
            cell: number(cell)?,
        }),
        ["write", worker, block, digits] => Some(Call::Write {
            worker: number(worker)?,
            block: number(block)?,
            value: record_of(digits)?,
        }),
        ["relink", worker, cell, expected, new] => Some(Call::Relink {
            worker: number(worker)?,
            cell: number(cell)?,
            expected: number_or_none(expected).ok()?,
            new: number_or_none(new).ok()?,
        }),
        _ => None,
    }
}
