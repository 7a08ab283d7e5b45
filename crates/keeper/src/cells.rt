// The cells: sixteen anchors, then two links of each block.
ghost use Rattle.std.specs.Prelude.{◌≡◌};
ghost use Rattle.machine.specs.State.{block as block_of, with_block, live_block};
ghost use Rattle.machine.specs.Cells.{home, held, with_link, with_cell, named_more, named_less};
ghost use Rattle.machine.specs.Calls.{or_none};
ghost use Rattle.machine.specs.Looking.{readable};

use crate::ranges::{Below, BlockId, CellId, Content, id};
use crate::tables::Tables;
use machine::{Block, Standing};

// The block that has the cell as its link; none where the cell is an anchor.
pub(crate) fn home(cell: CellId) -> Content
    ensures { result.block ≡ home cell.number }
{
    Content {
        block: cell.number.checked_sub(16).map(|link| link / 2),
    }
}

impl Tables {
    // Whether the block is live.
    pub(crate) fn is_live(&self, block: BlockId) -> bool
        ensures { result ≡ live_block self.now.core block.number }
    {
        matches!(
            self.core.blocks.rows[block.number as usize].standing,
            Standing::Live
        )
    }

    // Whether the block is live, or there is none.
    pub(crate) fn live_or_none(&self, given: Content) -> bool
        ensures { result ≡ or_none (live_block self.now.core) given.block }
    {
        given.block.is_none_or(|block| self.is_live(id(block)))
    }

    // Whether the cell can still be read: it is an anchor, or a live block's link.
    pub(crate) fn readable(&self, cell: CellId) -> bool
        ensures { result ≡ readable self.now.core (home cell.number) }
    {
        self.live_or_none(home(cell))
    }

    // What the cell holds.
    pub(crate) fn held(&self, cell: CellId) -> Content
        ensures { result.block ≡ held self.now.core cell.number }
    {
        let block = match cell.number.checked_sub(16) {
            None => self.core.anchors[cell.number as usize],
            Some(link) => self.core.blocks.rows[link as usize / 2].links[link as usize % 2],
        };
        Content { block }
    }

    // A block's link holds something else.
    fn put_link(&mut self, block: BlockId, link: Below<2>, to: Content)
        ensures { self.new.core ≡ with_block self.old.core block.number (with_link (block_of self.old.core block.number) link.number to.block) }
    {
        let mut row = self.core.blocks.rows[block.number as usize];
        row.links[link.number as usize] = to.block;
        self.put_block(block, row);
    }

    // The cell holds something else.
    pub(crate) fn put_cell(&mut self, cell: CellId, to: Content)
        ensures { self.new.core ≡ with_cell self.old.core cell.number to.block }
    {
        match cell.number.checked_sub(16) {
            None => self.put_anchor(id(cell.number), to),
            Some(link) => self.put_link(id(link / 2), id(link % 2), to),
        }
    }

    // One cell more names the block, if it is one.
    pub(crate) fn name_more(&mut self, named: Content)
        ensures { self.new.core ≡ named_more self.old.core named.block }
    {
        if let Some(block) = named.block {
            let row = self.core.blocks.rows[block as usize];
            let names = row.names.saturating_add(1);
            self.put_block(id(block), Block { names, ..row });
        }
    }

    // One cell fewer does. Not one function with the last: a closure for the method in which they differ would be no plainer.
    pub(crate) fn name_less(&mut self, named: Content)
        ensures { self.new.core ≡ named_less self.old.core named.block }
    {
        if let Some(block) = named.block {
            let row = self.core.blocks.rows[block as usize];
            let names = row.names.saturating_sub(1);
            self.put_block(id(block), Block { names, ..row });
        }
    }
}
