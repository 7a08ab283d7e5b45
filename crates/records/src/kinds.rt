// What a kind of record is.
ghost use Rattle.std.specs.Prelude.{◌≡◌, ℕ, List, replicate, Ok, Result};
ghost use Rattle.records.specs.declared.refusals.RecordFault.{RecordFault};
ghost use Rattle.records.specs.Layout.{Octets};

use crate::refusals::RecordFault;

// A record that fills eight bytes.
pub trait Kind: Copy {
    // The record that eight bytes hold, or the first field that is wrong.
    ghost decoded: { List ℕ → Result Self RecordFault };

    // The eight bytes of a record.
    ghost encoded: { Self → List ℕ };

    // What a record comes back as once it has been encoded and decoded.
    ghost kept: { Self → Self };

    // The record of a block that nothing was written to.
    ghost blank: { Self };

    // The record in eight bytes; if a field is wrong, the first such field.
    fn decode(bytes: &[u8; 8]) -> Result<Self, RecordFault>
        ensures { result ≡ decoded bytes.now };

    // The eight bytes, and what they are decoded to.
    fn encode(self) -> [u8; 8]
        ensures bytes { result ≡ encoded self }
        ensures returns { decoded result ≡ Ok (kept self) };

    // The record that zeros are.
    fn fresh() -> Self
        ensures { result ≡ blank };

    // Encoding what was decoded restores the eight bytes.
    ghost restores: { (bytes : List ℕ) (x : Self) → Octets bytes → decoded bytes ≡ Ok x → encoded x ≡ bytes };

    // Eight zero bytes are the fresh record.
    ghost zeros: { decoded (replicate 8 0) ≡ Ok blank };
}
