// A region: where it lies in the projected and in the packed picture, and how it is turned between them.
ghost use Rattle.std.specs.Prelude.{◌^◌};
ghost use Rattle.regionwise_packing.specs.Regions.{Spans};

use crate::guard_band::GuardBand;
use crate::shapes::Rectangle;
use crate::transform::Transform;

mod methods;

#[derive(Clone, Copy, PartialEq, Eq, Debug)]
pub struct Region {
    // how it is turned and then mirrored
    pub transform: Transform,
    pub projected: Rectangle<u32>,
    pub packed: Rectangle<u16>,
    pub guard: Option<GuardBand>,
    ghost wide: { Spans (2 ^ 32) projected },
    ghost narrow: { Spans (2 ^ 16) packed },
}
