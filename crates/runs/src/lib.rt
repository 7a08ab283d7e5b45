// Whole runs: a keeper is made and does calls one after another, and the laws of the machine hold throughout.
#![tactic(auto)]

mod one;
mod outcomes;
mod plays;

pub use one::ask;
pub use outcomes::{PlayFault, Played};
pub use plays::play;
