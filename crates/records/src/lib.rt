// Records in eight bytes: the trait of a kind of record, the two kinds that there are, and the codec for both.
//
// `Kind` says what decoding and encoding mean and that encoding restores what was decoded; `Reading` is kind 1,
// `Branch` kind 2. To add a kind, add its wrong fields to `RecordFault` and to specs/Refusals.antt, write its layout
// as a file of specs/, and implement `Kind`.
#![tactic(auto)]

mod branches;
mod hex;
mod kinds;
mod readings;
mod refusals;
mod sorts;
mod tables;
#[cfg(test)]
mod tests;
mod trips;
mod written;

pub use branches::Branch;
pub use hex::{Hex, HexByte};
pub use kinds::Kind;
pub use readings::Reading;
pub use refusals::RecordFault;
pub use tables::fresh_table;
pub use trips::{recoded, returned};
pub use written::eight_bytes;
