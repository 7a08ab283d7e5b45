// Bytes as hexadecimal digits.
ghost use Rattle.std.specs.Prelude.{◌≡◌, ◌<◌, [], Some};
ghost use Rattle.records.specs.Hexadecimal.{digit, byte_digits, bytes_digits, last_digits};

use std::fmt;

// A byte, shown as two lower-case hexadecimal digits, the high one first.
#[derive(Clone, Copy)]
pub struct HexByte(pub u8);

impl fmt::Display for HexByte {
    ghost output = { λ byte. Some (byte_digits byte.0) };

    #[tactic(auto, using(crate::proofs::Digits::encode_digit))]
    fn fmt<W: fmt::Write>(&self, f: &mut fmt::Formatter<W>) -> fmt::Result {
        // Two characters: `{:02x}` takes up to twice the time, most for a byte below sixteen.
        write!(f, "{}{}", hex_digit(self.0 / 16), hex_digit(self.0 % 16))
    }
}

// A number below sixteen as its lower-case hexadecimal digit.
fn hex_digit(number: u8) -> char
    requires { number < 16 }
    ensures { result ≡ digit number }
{
    char::from(if number < 10 {
        b'0' + number
    } else {
        b'a' + (number - 10)
    })
}

// Eight bytes, shown as sixteen lower-case hexadecimal digits, byte 0 first.
#[derive(Clone, Copy)]
pub struct Hex(pub [u8; 8]);

impl fmt::Display for Hex {
    ghost output = { λ bytes. Some (bytes_digits bytes.0) };

    #[tactic(auto, using(crate::proofs::Digits::sixteen_padded))]
    fn fmt<W: fmt::Write>(&self, f: &mut fmt::Formatter<W>) -> fmt::Result {
        // All as one number: byte by byte takes longer.
        let number = number_of(&self.0);
        write!(f, "{number:016x}")
    }
}

// The number that eight bytes write, byte 0 first: its sixteen digits are theirs.
#[tactic(auto, using(crate::proofs::Digits::digits_of_bytes))]
fn number_of(bytes: &[u8; 8]) -> u64
    ensures { last_digits 16 result [] ≡ bytes_digits bytes.now }
{
    u64::from_be_bytes(*bytes)
}
