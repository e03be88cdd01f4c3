// What a frame packing in force is asked for.
ghost use Rattle.std.specs.Prelude.{◌≡◌};
ghost use Rattle.frame_packing.specs.FramePacking.{content_numbers};
ghost use Rattle.frame_packings.specs.Packings.{packing_stay};
ghost use Rattle.frame_packings.specs.Tables.{message_of};

use crate::packing::Packing;
use frame_packing::message::FramePacking;
use kinds::in_force::Stay;

impl Packing {
    // The message that brings it into force.
    pub fn message(&self) -> FramePacking
        ensures { result ≡ message_of self.now }
    {
        FramePacking {
            id: self.id,
            arrangement: Some(self.arrangement),
        }
    }

    // How long it stays.
    pub fn stay(&self) -> Stay
        ensures { result ≡ packing_stay (content_numbers self.now.arrangement) }
    {
        Stay::from(self.arrangement.period)
    }
}
