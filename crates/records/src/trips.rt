// Both ways round through the codec.
ghost use Rattle.std.specs.Prelude.{◌≡◌, Ok};
ghost use Rattle.records.specs.Layout.{restored};

use crate::kinds::Kind;
use crate::refusals::RecordFault;

// Decodes and encodes again: accepted bytes come back as they were.
pub fn recoded<R: Kind>(bytes: &[u8; 8]) -> Result<[u8; 8], RecordFault>
    ensures { result ≡ restored (R.Kind.decoded bytes.now) bytes.now }
{
    R::decode(bytes).map(R::encode)
}

// Encodes and decodes again: no record is refused, and it comes back as its kind keeps it.
pub fn returned<R: Kind>(original: R) -> Result<R, RecordFault>
    ensures { result ≡ Ok (R.Kind.kept original) }
{
    R::decode(&original.encode())
}
