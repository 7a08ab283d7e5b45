// The keeper over any pool: every call does what the machine's definitions say.
#![tactic(auto)]

mod answers;
mod calls;
mod cells;
mod checks;
mod dropping;
mod giving;
mod hands;
mod keepers;
mod looking;
mod ranges;
mod relinking;
mod retiring;
mod tables;
mod taking;
mod tasks;
mod trying;
mod turns;

pub use answers::Told;
pub use keepers::Keeper;
