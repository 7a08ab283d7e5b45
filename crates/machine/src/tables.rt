// What a block table does to one of its blocks.
ghost use Rattle.std.specs.Prelude.{◌≡◌};
ghost use Rattle.machine.specs.Calls.{retired_row};

use crate::states::{Batch, Block, BlockTable, Standing};

impl BlockTable {
    // The block becomes retired and unowned, and joins the batch of `lead`, over the newest block of `batch`; a number that
    // the table does not have alters nothing.
    pub fn retire(&mut self, block: u16, batch: Option<Batch>, lead: u16)
        ensures { self.new ≡ retired_row self.old block batch lead }
    {
        let Some(&old) = self.rows.get(block as usize) else {
            return;
        };
        self.rows[block as usize] = Block {
            standing: Standing::Retired,
            owner: None,
            elder: batch.map(|own| own.newest),
            lead,
            count: batch.map_or(1024, |_| old.count),
            ..old
        };
    }
}
