// What becomes of a message that was read.
ghost use Rattle.std.specs.Prelude.{◌≡◌};
ghost use Rattle.kinds.specs.Outcome.{after, told};
ghost use Rattle.frame_packing.specs.FramePacking.{numbers};
ghost use Rattle.frame_packings.specs.Packings.{does};
ghost use Rattle.frame_packings.specs.Meaning.{meaning};

use crate::packing::Packing;
use crate::packings::FramePackings;
use frame_packing::message::FramePacking;
use kinds::fault::{OfferFault, Offered};
use kinds::kind::Kind;

impl FramePackings {
    // A message ends all, or brings its arrangement into force, unless four packings of other ids are.
    pub(super) fn decide(&mut self, message: FramePacking) -> Result<Offered, OfferFault>
        ensures answer { result ≡ told (does (meaning self.old) (numbers message)) }
        ensures after { meaning self.new ≡ after (meaning self.old) (does (meaning self.old) (numbers message)) }
    {
        let id = message.id;
        match message.arrangement {
            None => *self = FramePackings::empty(),
            Some(arrangement) => {
                if self.is_full(id.number) {
                    return Err(OfferFault::Full);
                }
                self.put(Packing { id, arrangement });
            }
        }
        Ok(Offered::Granted)
    }
}
