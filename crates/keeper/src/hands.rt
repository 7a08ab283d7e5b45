// Which blocks are in a worker's hand.
ghost use Rattle.std.specs.Prelude.{◌≡◌};
ghost use Rattle.machine.specs.Hands.{owns, shown, any_shows, in_hand, in_hand_without};
ghost use Rattle.machine.specs.Calls.{or_none};

use crate::ranges::{BlockId, Content, HoldId, WorkerId, id};
use crate::tables::Tables;

// Whether one of these holds shows the block.
fn any_shows(shows: [Option<u16>; 4], block: u16) -> bool
    ensures { result ≡ any_shows shows block }
{
    shows.contains(&Some(block))
}

impl Tables {
    // What the worker's hold shows.
    pub(crate) fn shown(&self, worker: WorkerId, hold: HoldId) -> Option<u16>
        ensures { result ≡ shown self.now.core worker.number hold.number }
    {
        self.core.workers[worker.number as usize].shows[hold.number as usize]
    }

    // Whether the worker owns the block.
    pub(crate) fn owns(&self, worker: WorkerId, block: BlockId) -> bool
        ensures { result ≡ owns self.now.core worker.number block.number }
    {
        self.core.blocks.rows[block.number as usize].owner == Some(worker.number)
    }

    // Whether the worker owns the block, or one of its holds shows it.
    pub(crate) fn in_hand(&self, worker: WorkerId, block: BlockId) -> bool
        ensures { result ≡ in_hand self.now.core worker.number block.number }
    {
        let shows = self.core.workers[worker.number as usize].shows;
        self.owns(worker, block) || any_shows(shows, block.number)
    }

    // The same of a block that is given, if one is.
    pub(crate) fn in_hand_or_none(&self, worker: WorkerId, given: Content) -> bool
        ensures { result ≡ or_none (in_hand self.now.core worker.number) given.block }
    {
        given
            .block
            .is_none_or(|block| self.in_hand(worker, id(block)))
    }

    // Whether the block is in the worker's hand without one of the holds.
    pub(crate) fn in_hand_without(&self, worker: WorkerId, hold: HoldId, block: BlockId) -> bool
        ensures { result ≡ in_hand_without self.now.core worker.number hold.number block.number }
    {
        let mut shows = self.core.workers[worker.number as usize].shows;
        shows[hold.number as usize] = None;
        self.owns(worker, block) || any_shows(shows, block.number)
    }
}
