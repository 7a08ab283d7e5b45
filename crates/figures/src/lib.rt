// The figures of one keeper, their limits, and how many blocks they ask for.
#![tactic(auto)]

mod checked;
mod limits;
mod refusals;

pub use checked::Figures;
pub use limits::{Figure, Form};
pub use refusals::Refusal;

#[cfg(test)]
mod tests;
