// Type 155, region-wise packing: the regions of the picture, and where each belongs.
#![tactic(auto)]

ghost use Rattle.std.specs.Prelude.{◌≡◌, ◌^◌, ◌<◌, true, length};
ghost use Rattle.bounded.specs.Bounded.{items};
ghost use Rattle.regionwise_packing.specs.Regions.{Sized};
ghost use Rattle.regionwise_packing.specs.Numbers.{all_inside};

use crate::region::Region;
use crate::shapes::Size;
use bounded::Bounded;
use std::fmt;

pub mod examples;
mod four;
pub mod guard_band;
pub mod kind;
mod methods;
pub mod record;
pub mod region;
pub mod shapes;
#[cfg(test)]
mod tests;
pub mod transform;

// 1 to 32 regions, each of them inside the packed picture.
#[derive(Clone, Copy, PartialEq, Eq, Debug)]
pub struct RegionwisePacking {
    // whether it stays in force beyond its picture
    pub persistence: bool,
    // whether the regions are those of each picture of a stereo pair
    pub matching: bool,
    pub projected: Size<u32>,
    pub packed: Size<u16>,
    pub regions: Bounded<Region, 32>,
    ghost wide: { Sized (2 ^ 32) projected },
    ghost narrow: { Sized (2 ^ 16) packed },
    ghost some: { 0 < length (items regions) },
    ghost within: { all_inside packed (items regions) ≡ true },
}

impl fmt::Display for RegionwisePacking {
    fn fmt<W: fmt::Write>(&self, f: &mut fmt::Formatter<W>) -> fmt::Result {
        let count = self.regions.len();
        let regions = if count == 1 { "region" } else { "regions" };
        let packed = self.packed;
        let projected = self.projected;
        let matching = u8::from(self.matching);
        let persistence = u8::from(self.persistence);
        write!(f, "region-wise packing: {count} {regions}, ")?;
        write!(f, "packed picture {} by {}, ", packed.width, packed.height)?;
        write!(
            f,
            "projected picture {} by {}, ",
            projected.width, projected.height
        )?;
        write!(
            f,
            "constituent picture matching {matching}, persistence {persistence}"
        )
    }
}
