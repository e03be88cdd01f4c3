// Making a guard band, reading it and writing it.
ghost use Rattle.fields.specs.Groups.{ReadsGroup, WritesGroup};
ghost use Rattle.fields.specs.Writing.{sheet};
ghost use Rattle.regionwise_packing.specs.Regions.{guard_band};
ghost use Rattle.regionwise_packing.specs.Numbers.{band_numbers};
ghost use Rattle.regionwise_packing.specs.Makings.{Goes, MakesBand};

use crate::four;
use crate::guard_band::GuardBand;
use crate::shapes::Sides;
use fields::reader::Reader;
use fields::writer::Writer;
use layouts::fault::FieldFault;

impl GuardBand {
    // A guard band; a type above 7 is out of range.
    pub fn new(widths: Sides<u8>, not_used: bool, types: Sides<u8>) -> Result<GuardBand, FieldFault>
        ensures { MakesBand widths not_used types result }
    {
        let each = [types.left, types.right, types.top, types.bottom];
        // `equirectangular` asks the same of its one type: a function of both would lie in a crate below both, public, with a contract and an edit of its own, and be longer than the comparison that it would say once
        if each.iter().any(|guard_type| *guard_type > 7) {
            return Err(FieldFault::OutOfRange(0));
        }
        Ok(GuardBand {
            widths,
            not_used,
            types,
        })
    }

    pub(crate) fn read(reader: &mut Reader) -> Result<GuardBand, FieldFault>
        ensures reads { ReadsGroup guard_band band_numbers reader.old result reader.new }
        ensures goes { Goes 48 reader.old result reader.new }
    {
        let widths = four::read(reader, 8)?;
        let not_used = reader.flag()?;
        let types = four::read(reader, 3)?;
        reader.bits(3)?;
        Ok(GuardBand {
            widths,
            not_used,
            types,
        })
    }

    pub(crate) fn write(&self, writer: &mut Writer)
        ensures after { WritesGroup guard_band (band_numbers self.now) (sheet writer.old) (sheet writer.new) }
    {
        four::write(writer, 8, self.widths);
        writer.flag(self.not_used);
        four::write(writer, 3, self.types);
        writer.bits(3, 0);
    }
}
