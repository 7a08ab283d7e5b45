// Numbers that the tables have.
ghost use Rattle.std.specs.Prelude.{◌≡◌, ◌<◌, true};
ghost use Rattle.keeper.specs.Fits.{number_fits};

// A number below N: an index into a table of N entries.
#[derive(Clone, Copy)]
pub(crate) struct Below<const N: u16> {
    pub(crate) number: u16,
    ghost fits: { number < N },
}

// The indices of workers, of holds, of anchors, of blocks, of cells, and of the places of reservations.
pub(crate) type WorkerId = Below<8>;

pub(crate) type HoldId = Below<4>;

pub(crate) type AnchorId = Below<16>;

pub(crate) type BlockId = Below<2048>;

pub(crate) type CellId = Below<4112>;

pub(crate) type Place = Below<32>;

// The index that a number is.
pub(crate) fn id<const N: u16>(number: u16) -> Below<N>
    requires { number < N }
    ensures { result.number ≡ number }
{
    Below { number }
}

// What a cell holds: a block that the table has, or none.
#[derive(Clone, Copy)]
pub(crate) struct Content {
    pub(crate) block: Option<u16>,
    ghost fits: { number_fits block ≡ true },
}
