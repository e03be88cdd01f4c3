// A guard band: samples around a packed region.
ghost use Rattle.regionwise_packing.specs.Regions.{Below};

use crate::shapes::Sides;

mod methods;

#[derive(Clone, Copy, PartialEq, Eq, Debug)]
pub struct GuardBand {
    pub widths: Sides<u8>,
    // whether its samples are not used for prediction
    pub not_used: bool,
    // what its samples are: 0 to 3 have a meaning; numbers, since 4 to 7 are reserved and kept as they are: `Reserved(n)` of an enum could hold a number that has a case of its own
    pub types: Sides<u8>,
    // of the widths the type says it; a specification, where all numbers are ℕ, does not see that
    ghost narrow: { Below 256 widths },
    ghost typed: { Below 8 types },
}
