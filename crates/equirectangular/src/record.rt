// An equirectangular projection as the body of a record: what follows its cancel bit.
ghost use Rattle.equirectangular.specs.Equirectangular.{content as equirectangular_content, content_numbers as equirectangular_numbers};
ghost use Rattle.std.proofs.Common.{ap, rules};
ghost use Rattle.std.specs.Prelude.{drop, slice_index};
ghost use Rattle.records.proofs.Same.{bit-same};
ghost use Rattle.equirectangular.specs.EquirectangularBodyLemmas.{bands};
ghost use Rattle.equirectangular.specs.Rulings.{content-takes};

use crate::{Equirectangular, GuardBand};
use fields::reader::Reader;
use fields::writer::Writer;
use layouts::fault::FieldFault;
use records::cancelable::Body;

impl Body for Equirectangular {
    ghost content = { equirectangular_content };

    ghost content_numbers = { equirectangular_numbers };

    ghost most = { 23 };

    ghost apart = { λ o p e.
        let persistence = bit-same o.persistence p.persistence (ap (λ l. slice_index l 0) e) in
        let guard = bands o.guard_band p.guard_band (ap (drop 1) e) in
        λ i. record { persistence = persistence i; guard_band = guard i } };

    ghost short = { content-takes };

    ghost limited = { Prim.search rules };

    fn decode(mut reader: Reader) -> Result<Equirectangular, FieldFault> {
        let persistence = reader.flag()?;
        let guarded = reader.flag()?;
        reader.bits(2)?;
        // closed in each branch, where the place is known: so a message without a band is read in a fifth less time;
        // a trait for all optional groups would be longer than the `if`s that it would say once, here and in `encode`;
        // `guarded.then(|| ..).transpose()?` was tried where a region's guard band is read: `then` does not say that the reader stays where it is when the closure is not called
        let guard_band = if guarded {
            let guard_type = reader.bits(3)? as u8;
            let left_width = reader.bits(8)? as u8;
            let right_width = reader.bits(8)? as u8;
            reader.close()?;
            Some(GuardBand {
                guard_type,
                left_width,
                right_width,
            })
        } else {
            reader.close()?;
            None
        };
        Ok(Equirectangular {
            persistence,
            guard_band,
        })
    }

    fn encode(&self, writer: &mut Writer) {
        writer.flag(self.persistence);
        writer.flag(self.guard_band.is_some());
        writer.bits(2, 0);
        // an optional group, for which a trait would be longer, as in `decode`
        if let Some(band) = self.guard_band {
            writer.bits(3, u32::from(band.guard_type));
            writer.bits(8, u32::from(band.left_width));
            writer.bits(8, u32::from(band.right_width));
        }
        writer.close();
    }
}
