// Kind 1: a reading.
ghost use Rattle.std.specs.Prelude.{◌≡◌, if◌then◌else◌, Ok, Err, from_bits, is_nan};
ghost use Rattle.std.specs.Float.{binary32};
ghost use Rattle.records.specs.declared.readings.Reading.TheVariants.{Missing, Analogue};
ghost use Rattle.records.specs.declared.refusals.RecordFault.TheVariants.{WrongValue};
ghost use Rattle.records.specs.Readings.{decoded_reading, encoded_reading, kept_reading, laid_out};
ghost use Rattle.records.specs.Sorts.{sort_byte};
ghost use Rattle.records.specs.ReadingRoundTrip.{reading_restores};
ghost use Rattle.std.proofs.Common.{rules};

use crate::kinds::Kind;
use crate::refusals::RecordFault;
use crate::sorts::Sort;
use std::num::f32_from_bits_with_nan;

// What was read of one channel.
#[derive(Clone, Copy, PartialEq, Debug)]
pub enum Reading {
    // Nothing was read.
    Missing,
    // A measured value.
    Analogue(f32),
    // A count.
    Counter(u32),
    // Whether it is on.
    State(bool),
}

impl Kind for Reading {
    ghost decoded = { decoded_reading };

    ghost encoded = { encoded_reading };

    ghost kept = { kept_reading };

    ghost blank = { Missing };

    ghost restores = { reading_restores };

    ghost zeros = { Prim.search rules };

    // Byte 0 is the sort, bytes 1 to 3 are zeros, bytes 4 to 7 the value, low byte first.
    fn decode(bytes: &[u8; 8]) -> Result<Reading, RecordFault> {
        let [sort, gap1, gap2, gap3, v0, v1, v2, v3] = *bytes;
        let sort = Sort::try_from(sort)?;
        if gap1 != 0 || gap2 != 0 || gap3 != 0 {
            return Err(RecordFault::GapNotZero);
        }
        match (sort, u32::from_le_bytes([v0, v1, v2, v3])) {
            (Sort::Missing, 0) => Ok(Reading::Missing),
            (Sort::Analogue, bits) => analogue(bits),
            (Sort::Counter, count) => Ok(Reading::Counter(count)),
            (Sort::State, 0) => Ok(Reading::State(false)),
            (Sort::State, 1) => Ok(Reading::State(true)),
            (Sort::Missing | Sort::State, _) => Err(RecordFault::WrongValue),
        }
    }

    fn encode(self) -> [u8; 8] {
        match self {
            Reading::Missing => laid(Sort::Missing, 0),
            Reading::Analogue(value) => laid_analogue(value),
            Reading::Counter(count) => laid(Sort::Counter, count),
            Reading::State(on) => laid(Sort::State, u32::from(on)),
        }
    }

    fn fresh() -> Reading {
        Reading::Missing
    }
}

// The reading that a measured value's bits are, unless they are no number.
fn analogue(bits: u32) -> Result<Reading, RecordFault>
    ensures { result ≡ (if is_nan (from_bits binary32 bits) then Err WrongValue else Ok (Analogue (from_bits binary32 bits))) }
{
    let measured = f32_from_bits_with_nan(bits);
    if measured.is_nan() {
        return Err(RecordFault::WrongValue);
    }
    Ok(Reading::Analogue(measured))
}

// A measured value in its place; one that is not a number is laid out as missing.
#[tactic(auto, using(crate::specs::ReadingRoundTrip::number_returns))]
fn laid_analogue(value: f32) -> [u8; 8]
    ensures bytes { result ≡ encoded_reading (Analogue value) }
    ensures returns { decoded_reading result ≡ Ok (kept_reading (Analogue value)) }
{
    if value.is_nan() {
        return laid(Sort::Missing, 0);
    }
    laid(Sort::Analogue, value.to_bits())
}

// A sort and a value in their places.
fn laid(sort: Sort, value: u32) -> [u8; 8]
    ensures { result ≡ laid_out (sort_byte sort) value }
{
    let [v0, v1, v2, v3] = value.to_le_bytes();
    [sort as u8, 0, 0, 0, v0, v1, v2, v3]
}
