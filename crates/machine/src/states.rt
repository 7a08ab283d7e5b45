// What a keeper keeps, but for its pool. Plain structs, so that the code and the definitions speak of the same thing.
use figures::Form;

// What a block is, by its number and the calls.
#[derive(Clone, Copy)]
pub enum Standing {
    Pooled,
    Live,
    Retired,
}

// A block. What a batch keeps with its lead has no meaning in other blocks.
#[derive(Clone, Copy)]
pub struct Block {
    pub standing: Standing,
    // the worker that took it and has not linked it yet
    pub owner: Option<u16>,
    // the era at which it was taken
    pub birth: u32,
    pub links: [Option<u16>; 2],
    // how many anchors and live blocks' links name it
    pub names: u16,
    // the next older block on the list that it hangs on
    pub under: Option<u16>,
    // the reservation that it was set aside for
    pub slot: u16,
    // the next older block of its batch, and the first that joined
    pub elder: Option<u16>,
    pub lead: u16,
    // with a lead: the count of its batch and, once that has left its worker, the newest block of it
    pub count: u16,
    pub newest: u16,
}

impl Block {
    pub const FRESH: Block = Block {
        standing: Standing::Pooled,
        owner: None,
        birth: 0,
        links: [None; 2],
        names: 0,
        under: None,
        slot: 0,
        elder: None,
        lead: 0,
        count: 0,
        newest: 0,
    };
}

// The blocks by number, and with numbers for what one names: memory is fixed and there is no heap, so no `Vec` and no `Box`.
#[derive(Drop)]
pub struct BlockTable {
    pub rows: [Block; 2048],
}

// The list of a reservation: off, empty, or the newest block that hangs on it. Not an `Option` within an `Option`: the names say
// which of two kinds of nothing is meant.
#[derive(Clone, Copy)]
pub enum HungList {
    Off,
    Empty,
    Newest(u16),
}

// What keeps blocks from the pool for one hold.
#[derive(Clone, Copy)]
pub struct Reservation {
    pub list: HungList,
    pub era: u32,
}

// What a worker has retired since a try last emptied it, at least one block.
#[derive(Clone, Copy)]
pub struct Batch {
    pub lead: u16,
    pub newest: u16,
    pub size: u16,
    // the smallest birth in it
    pub least: u32,
}

// A worker's task and the step that its next turn does: plain numbers, by a rule of the project, so no types for a hold and a cell
// that go together.
#[derive(Clone, Copy)]
pub enum Task {
    Idle,
    // taking: raise the era, take the block
    TakeEra,
    TakeBlock,
    // looking: read the cell, compare the era, empty the list, walk, read the era, write the era
    LookCell {
        hold: u16,
        cell: u16,
    },
    LookEra {
        hold: u16,
        cell: u16,
        seen: Option<u16>,
    },
    LookList {
        hold: u16,
        cell: u16,
        era: u32,
    },
    LookWalk {
        hold: u16,
        cell: u16,
        next: u16,
    },
    LookAgain {
        hold: u16,
        cell: u16,
    },
    LookWrite {
        hold: u16,
        cell: u16,
        era: u32,
    },
    // dropping: turn the list off, walk, set the era to 0
    DropList {
        hold: u16,
    },
    DropWalk {
        hold: u16,
        next: u16,
    },
    DropEra {
        hold: u16,
    },
    // trying: visit a reservation, hang a block, settle the count
    TryVisit {
        place: u16,
        next: u16,
        aside: u16,
    },
    TryHang {
        next: u16,
        left: u16,
        hung: u16,
    },
    TryLast {
        hung: u16,
    },
}

#[derive(Clone, Copy)]
pub struct Worker {
    // takings since the era was last raised by this worker
    pub takings: u16,
    pub task: Task,
    pub batch: Option<Batch>,
    // what each hold shows
    pub shows: [Option<u16>; 4],
}

// A keeper but for its pool. All stands in arrays within it, by a rule of the project: memory is fixed and there is no heap.
#[derive(Drop)]
pub struct Core {
    pub form: Form,
    pub era: u32,
    // how many blocks are live
    pub live: u16,
    pub anchors: [Option<u16>; 16],
    pub blocks: BlockTable,
    // by worker and then by hold
    pub reservations: [Reservation; 32],
    pub workers: [Worker; 8],
}
