// A cubemap projection as the body of a record: what follows its cancel bit.
ghost use Rattle.cubemap.specs.Cubemap.{content as cubemap_content, content_numbers as cubemap_numbers};
ghost use Rattle.cubemap.specs.Rulings.{content-takes};
ghost use Rattle.std.proofs.Common.{rules};

use crate::Cubemap;
use fields::reader::Reader;
use fields::writer::Writer;
use layouts::fault::FieldFault;
use records::cancelable::Body;

impl Body for Cubemap {
    ghost content = { cubemap_content };

    ghost content_numbers = { cubemap_numbers };

    ghost most = { 1 };

    ghost apart = { Prim.search rules };

    ghost short = { content-takes };

    ghost limited = { Prim.search rules };

    fn decode(mut reader: Reader) -> Result<Cubemap, FieldFault> {
        let persistence = reader.flag()?;
        reader.close()?;
        Ok(Cubemap { persistence })
    }

    fn encode(&self, writer: &mut Writer) {
        writer.flag(self.persistence);
        writer.close();
    }
}
