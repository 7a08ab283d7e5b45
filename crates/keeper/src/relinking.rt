// Relinking a cell.
ghost use Rattle.std.specs.Prelude.{◌≡◌};
ghost use Rattle.machine.specs.Cells.{held};
ghost use Rattle.machine.specs.Calls.{own_cell, disowned, relinked, relink};
ghost use Rattle.keeper.specs.Called.{plain};

use crate::answers::Plain;
use crate::cells::home;
use crate::ranges::{CellId, Content, WorkerId, id};
use crate::tables::Tables;
use machine::{Block, Refusal};

// Whether the new block is the cell's own.
fn own_cell(cell: CellId, new: Content) -> bool
    ensures { result ≡ own_cell cell.number new.block }
{
    new.block.is_some() && new.block == home(cell).block
}

impl Tables {
    // A block that the worker owned has no owner any more.
    fn disown(&mut self, worker: WorkerId, new: Content)
        ensures { self.new.core ≡ disowned self.old.core worker.number new.block }
    {
        if let Some(block) = new.block {
            if self.owns(worker, id(block)) {
                let row = self.core.blocks.rows[block as usize];
                self.put_block(id(block), Block { owner: None, ..row });
            }
        }
    }

    // The cell, which holds `old`, holds the new block or none.
    fn link(&mut self, worker: WorkerId, cell: CellId, old: Content, new: Content)
        requires { old.block ≡ held self.old.core cell.number }
        ensures { self.new.core ≡ relinked self.old.core worker.number cell.number new.block }
    {
        self.name_less(old);
        self.name_more(new);
        self.disown(worker, new);
        self.put_cell(cell, new);
    }

    // Relink: where the cell holds `expected`, it holds `new`.
    pub(crate) fn relink(
        &mut self,
        worker: u16,
        cell: u16,
        expected: Option<u16>,
        new: Option<u16>,
    ) -> Plain
        ensures { plain self.new.core result ≡ relink self.old.core worker cell expected new }
    {
        let worker = self.worker(worker)?;
        let cell = self.cell(cell)?;
        let expected = self.block_or_none(expected)?;
        let new = self.block_or_none(new)?;
        self.must_be_free(worker)?;
        let home = home(cell);
        if !self.in_hand_or_none(worker, home) || !self.in_hand_or_none(worker, new) {
            return Err(Refusal::OutOfHand);
        }
        if !self.live_or_none(home) || !self.live_or_none(new) {
            return Err(Refusal::Withdrawn);
        }
        if own_cell(cell, new) {
            return Err(Refusal::SelfLink);
        }
        let old = self.held(cell);
        if old.block != expected.block {
            return Err(Refusal::Moved);
        }
        self.link(worker, cell, old, new);
        Ok((false, None))
    }
}
