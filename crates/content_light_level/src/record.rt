// A content light level as a record.
ghost use Rattle.content_light_level.specs.ContentLightLevel.{layout as level_layout, numbers as level_numbers};
ghost use Rattle.std.proofs.Common.{ap, arith, rules};
ghost use Rattle.std.specs.Prelude.{slice_index};
ghost use Rattle.content_light_level.specs.Same.{level-same};
ghost use Rattle.content_light_level.specs.Rulings.{content-takes};

use crate::ContentLightLevel;
use fields::reader::Reader;
use fields::writer::Writer;
use layouts::fault::FieldFault;
use records::record::Record;

impl Record for ContentLightLevel {
    ghost layout = { level_layout };

    ghost numbers = { level_numbers };

    ghost greatest = { 4 };

    ghost apart = { λ l m e. level-same l m (ap (λ x. slice_index x 0) e) (ap (λ x. slice_index x 1) e) };

    ghost short = { λ vs h. omega (arith, content-takes vs h) };

    ghost limited = { Prim.search rules };

    fn decode(mut reader: Reader) -> Result<ContentLightLevel, FieldFault> {
        let greatest = reader.bits(16)? as u16;
        let greatest_average = reader.bits(16)? as u16;
        reader.close()?;
        Ok(ContentLightLevel {
            greatest,
            greatest_average,
        })
    }

    fn encode(&self, writer: &mut Writer) {
        writer.bits(16, u32::from(self.greatest));
        writer.bits(16, u32::from(self.greatest_average));
        writer.close();
    }
}
