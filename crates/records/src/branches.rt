// Kind 2: a branch.
ghost use Rattle.records.specs.Branches.{decoded_branch, encoded_branch};
ghost use Rattle.records.specs.BranchRoundTrip.{branch_restores};
ghost use Rattle.std.proofs.Common.{rules};

use crate::kinds::Kind;
use crate::refusals::RecordFault;

// The unit that a branch leads to, and how many channels it has.
#[derive(Clone, Copy, PartialEq, Eq, Debug)]
pub struct Branch {
    pub unit: u16,
    pub channels: u8,
}

impl Kind for Branch {
    ghost decoded = { decoded_branch };

    ghost encoded = { encoded_branch };

    ghost kept = { λ branch. branch };

    ghost blank = { record { unit = 0; channels = 0 } };

    ghost restores = { branch_restores };

    ghost zeros = { Prim.search rules };

    // Bytes 0 and 1 are the unit, low byte first, byte 2 is the channels, bytes 3 to 7 are zeros.
    fn decode(bytes: &[u8; 8]) -> Result<Branch, RecordFault> {
        match *bytes {
            [low, high, channels, 0, 0, 0, 0, 0] => Ok(Branch {
                unit: u16::from_le_bytes([low, high]),
                channels,
            }),
            _ => Err(RecordFault::TailNotZero),
        }
    }

    fn encode(self) -> [u8; 8] {
        let [low, high] = self.unit.to_le_bytes();
        [low, high, self.channels, 0, 0, 0, 0, 0]
    }

    fn fresh() -> Branch {
        Branch {
            unit: 0,
            channels: 0,
        }
    }
}
