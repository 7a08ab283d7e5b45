// What a keeper is asked, and what it answers.

// A call, by any worker and with any numbers. A record is of type R.
#[derive(Clone, Copy)]
pub enum Call<R> {
    // Begin to take a block from the pool.
    Take {
        worker: u16,
    },
    // Begin to look at a cell, with one of the worker's holds.
    Look {
        worker: u16,
        hold: u16,
        cell: u16,
    },
    // Begin to drop all of the worker's holds.
    Drop {
        worker: u16,
    },
    // Give up a block that was cut out of the tree.
    Retire {
        worker: u16,
        block: u16,
    },
    // Let a cell that holds `expected` hold `new`.
    Relink {
        worker: u16,
        cell: u16,
        expected: Option<u16>,
        new: Option<u16>,
    },
    // Replace the record of a block that the worker owns.
    Write {
        worker: u16,
        block: u16,
        value: R,
    },
    // Read the record of the block that a hold shows.
    Read {
        worker: u16,
        hold: u16,
    },
    // One step of the worker's task.
    Turn {
        worker: u16,
    },
}

// The value of a finished call or task.
#[derive(Clone, Copy)]
pub enum Value<R> {
    Block(u16),
    Record(R),
}

// Whether the worker's task goes on, the value, and how many blocks were given back to the pool.
// A flag with a value beside it: what a keeper answers is these three by a rule of the project.
#[derive(Clone, Copy)]
pub struct Answer<R> {
    pub goes_on: bool,
    pub value: Option<Value<R>>,
    pub given: u16,
}
