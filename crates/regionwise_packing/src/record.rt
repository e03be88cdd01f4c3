// A region-wise packing as the body of a record: what follows its cancel bit.
ghost use Rattle.regionwise_packing.specs.Packing.{content as packing_content, content_numbers as packing_numbers};
ghost use Rattle.std.proofs.Common.{rules};
ghost use Rattle.regionwise_packing.specs.Packings.{packing-same};
ghost use Rattle.regionwise_packing.specs.Lengths.{takes-content};

use crate::RegionwisePacking;
use fields::reader::Reader;
use fields::writer::Writer;
use layouts::fault::FieldFault;
use records::cancelable::Body;

impl Body for RegionwisePacking {
    ghost content = { packing_content };

    ghost content_numbers = { packing_numbers };

    ghost most = { 8047 };

    fn decode(mut reader: Reader) -> Result<RegionwisePacking, FieldFault> {
        let packing = RegionwisePacking::read_content(&mut reader)?;
        reader.close()?;
        Ok(packing)
    }

    fn encode(&self, writer: &mut Writer) {
        self.write_content(writer);
        writer.close();
    }

    ghost apart = { packing-same };

    ghost short = { takes-content };

    ghost limited = { Prim.search rules };
}
