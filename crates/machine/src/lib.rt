// The machine: what the keeper does at every call and every step, as types that its code uses and as definitions
// over them in specs/.
#![tactic(auto)]

mod calls;
mod examples;
mod laws;
mod refusals;
mod states;
mod tables;

pub use calls::{Answer, Call, Value};
pub use examples::worked_examples;
pub use laws::{
    accounts_see_a_short_run, eras_stay_in_order, looks_answer_what_was_named,
    retired_stay_below_ceiling, shown_blocks_are_kept, structure_stands,
};
pub use refusals::{KeeperFault, Refusal};
pub use states::{Batch, Block, BlockTable, Core, HungList, Reservation, Standing, Task, Worker};
