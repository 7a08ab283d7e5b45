// What both pools begin with.
ghost use Rattle.pools.specs.Fresh.{OwnPlaces};

use crate::LARGEST;
use std::array;

// Each number at its own place.
pub(crate) fn own_places() -> [u16; LARGEST]
    ensures { OwnPlaces result }
{
    array::from_fn(|place| place as u16)
}
