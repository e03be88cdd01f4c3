// What is in force of frame packing: at most four packings, upward by id.
ghost use Rattle.std.specs.Prelude.{◌≡◌, true};
ghost use Rattle.bounded.specs.Bounded.{items};
ghost use Rattle.frame_packings.specs.Tables.{meaning_of, rises};

use crate::packing::Packing;
use bounded::Bounded;

mod decisions;
pub mod kind;
mod table;

// The table stands in place, and is filled anew: a map would be heap memory.
#[derive(Drop)]
pub struct FramePackings {
    table: Bounded<Packing, 4>,
    ghost rising: { rises (meaning_of (items table)) ≡ true },
}
