// What holds of every pool over whole runs of takes and gives, whichever number it hands out next.
#![tactic(auto)]

mod circuit;
mod moves;
mod plays;
#[cfg(test)]
mod tests;

pub use circuit::circulate;
pub use moves::{Move, Outcome};
pub use plays::play;
