// What a line writes.
ghost use Rattle.std.specs.Prelude.{◌≡◌};
ghost use Rattle.records_lines.specs.Lines.{entry_of};

use records::eight_bytes;

// Eight bytes, and which kind of record they are to be.
#[derive(Clone, Copy)]
pub enum Entry {
    Reading([u8; 8]),
    Branch([u8; 8]),
}

// The entry of a line: `1` or `2`, one blank and sixteen hexadecimal digits, or none if it is anything else.
pub fn parse(line: &[u8]) -> Option<Entry>
    ensures { result ≡ entry_of line.now }
{
    match line {
        [b'1', b' ', digits @ ..] => eight_bytes(digits).map(Entry::Reading),
        [b'2', b' ', digits @ ..] => eight_bytes(digits).map(Entry::Branch),
        _ => None,
    }
}
