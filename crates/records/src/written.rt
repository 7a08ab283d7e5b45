// Bytes that are written in hexadecimal digits.
ghost use Rattle.std.specs.Prelude.{◌≡◌};
ghost use Rattle.records.specs.Hexadecimal.{byte_of, eight_bytes};

// The bytes that sixteen digits write, byte 0 first.
#[tactic(auto, using(crate::proofs::Pairs::pairs))]
pub fn eight_bytes(digits: &[u8]) -> Option<[u8; 8]>
    ensures { result ≡ eight_bytes digits.now }
{
    // At once where there are not sixteen, and not past the eight bytes of too many.
    if digits.len() != 16 {
        return None;
    }
    let mut bytes = [0; 8];
    // By a slice pattern: of what is written through `zip` with `iter_mut` a clause knows nothing.
    let mut left = digits;
    for place in bytes.iter_mut() {
        let [high, low, rest @ ..] = left else {
            return None;
        };
        *place = byte(*high, *low)?;
        left = rest;
    }
    left.is_empty().then_some(bytes)
}

// The byte that two digits write, the high one first.
fn byte(high: u8, low: u8) -> Option<u8>
    ensures { result ≡ byte_of high low }
{
    let high = char::from(high).to_digit(16)?;
    let low = char::from(low).to_digit(16)?;
    Some((high * 16 + low) as u8)
}
