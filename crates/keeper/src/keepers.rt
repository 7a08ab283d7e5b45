// What a keeper is made of.
mod calling;
mod making;
mod recording;

use crate::tables::Tables;

// A keeper with a pool of its own.
#[derive(Drop)]
pub struct Keeper<P> {
    tables: Tables,
    pool: P,
}
