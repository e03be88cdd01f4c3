// A display orientation as the body of a record: what follows its cancel bit.
ghost use Rattle.display_orientation.specs.DisplayOrientation.{content as orientation_content, content_numbers as orientation_numbers};
ghost use Rattle.std.proofs.Common.{ap, rules, arith};
ghost use Rattle.std.specs.Prelude.{slice_index};
ghost use Rattle.records.proofs.Same.{bit-same, period-same};
ghost use Rattle.display_orientation.specs.Same.{orientation-same};
ghost use Rattle.display_orientation.specs.Rulings.{content-takes};

use crate::DisplayOrientation;
use fields::reader::Reader;
use fields::writer::Writer;
use layouts::fault::FieldFault;
use records::cancelable::Body;
use records::period::Period;

impl Body for DisplayOrientation {
    ghost content = { orientation_content };

    ghost content_numbers = { orientation_numbers };

    ghost most = { 48 };

    ghost apart = { λ o p e. orientation-same o p (bit-same _ _ (ap (λ l. slice_index l 0) e)) (bit-same _ _ (ap (λ l. slice_index l 1) e)) (ap (λ l. slice_index l 2) e) (period-same _ _ (ap (λ l. slice_index l 3) e)) };

    ghost short = { content-takes };

    ghost limited = { Prim.search rules };

    fn decode(mut reader: Reader) -> Result<DisplayOrientation, FieldFault> {
        let horizontal_flip = reader.flag()?;
        let vertical_flip = reader.flag()?;
        let rotation = reader.bits(16)? as u16;
        let period = Period::read(&mut reader)?;
        reader.extension()?;
        Ok(DisplayOrientation {
            horizontal_flip,
            vertical_flip,
            rotation,
            period,
        })
    }

    fn encode(&self, writer: &mut Writer) {
        writer.flag(self.horizontal_flip);
        writer.flag(self.vertical_flip);
        writer.bits(16, u32::from(self.rotation));
        self.period.write(writer);
        writer.extension();
    }
}
