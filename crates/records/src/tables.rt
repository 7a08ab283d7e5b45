// Tables of records.
ghost use Rattle.std.specs.Prelude.{◌≡◌, replicate, IfOk};

use crate::kinds::Kind;
use std::alloc::{AllocError, Global};

// A table of `count` fresh records.
pub fn fresh_table<R: Kind>(heap: Global, count: usize) -> Result<Vec<R>, AllocError>
    ensures { IfOk result (λ table. table.items ≡ replicate count R.Kind.blank) }
{
    // Room for just so many: `resize` alone makes more for a table of one or two.
    let mut table = Vec::with_capacity(heap, count)?;
    table.resize(count, R::fresh())?;
    Ok(table)
}
