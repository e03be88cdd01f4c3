// What the packings in force promise as a kind.
ghost use Rattle.std.specs.Prelude.{refl};
ghost use Rattle.bounded.specs.Bounded.{items};
ghost use Rattle.frame_packings.specs.PackingLaws.{packing_lawful};
ghost use Rattle.frame_packings.specs.Packings.{packing_model};
ghost use Rattle.frame_packings.specs.TableLaws.{table_sound};
ghost use Rattle.frame_packings.specs.Tables.{meaning_of};

use crate::packings::FramePackings;
use bounded::Bounded;
use frame_packing::message::{FramePacking, PackingId};
use kinds::fault::{LookFault, OfferFault, Offered};
use kinds::kind::Kind;
use records::record::Record;

impl Kind for FramePackings {
    ghost TYPE = { packing_model.number };

    const TYPE: u32 = 45;

    ghost GREATEST = { packing_model.greatest };

    const GREATEST: usize = 77;

    ghost model = { packing_model };

    ghost meaning = { λ s. meaning_of (items s.table) };

    fn empty() -> FramePackings {
        FramePackings {
            table: Bounded::new(),
        }
    }

    fn picture(&mut self, mark: bool) {
        if mark {
            *self = FramePackings::empty();
        } else {
            self.end_once();
        }
    }

    fn offer(&mut self, payload: &[u8]) -> Result<Offered, OfferFault> {
        let id = FramePacking::id_of(payload)?;
        // passed over, whatever else is read of it
        if PackingId::is_reserved(id) {
            return Ok(Offered::Passed);
        }
        let message = <FramePacking as Record>::read(payload)?;
        self.decide(message)
    }

    #[tactic(auto, using(crate::proofs::Rows::as_many))]
    fn count(&self) -> usize {
        self.table.len()
    }

    #[tactic(auto, using(crate::proofs::Parts::lengths))]
    fn payload_len(&self, n: usize) -> Option<usize> {
        let packing = self.table.get(n)?;
        Some(packing.message().payload_len())
    }

    fn payload(&self, n: usize, buffer: &mut [u8]) -> Result<usize, LookFault> {
        self.write_at(n, buffer)
    }

    ghost lawful = { packing_lawful };

    ghost sound = { λ s. table_sound s };

    ghost typed = { refl };

    ghost limited = { refl };
}
