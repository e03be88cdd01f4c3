// Making a period, and reading and writing one.
ghost use Rattle.std.specs.Prelude.{◌≡◌};
ghost use Rattle.layouts.specs.Layout.{coded};
ghost use Rattle.fields.specs.Writing.{sheet, put};
ghost use Rattle.records.specs.Period.{period_code, MakesPeriod, ReadsPeriod};

use crate::period::Period;
use fields::reader::Reader;
use fields::writer::Writer;
use layouts::fault::FieldFault;

// The pictures of a period at most.
const MOST: u32 = 16_384;

impl Period {
    // A period of so many pictures; more than 16,384 are out of range.
    pub fn new(pictures: u32) -> Result<Period, FieldFault>
        ensures { MakesPeriod pictures result }
    {
        if pictures > MOST {
            return Err(FieldFault::OutOfRange(0));
        }
        Ok(Period {
            pictures: pictures as u16,
        })
    }

    // The period that comes next, as a ue field.
    pub fn read(reader: &mut Reader) -> Result<Period, FieldFault>
        ensures { ReadsPeriod reader.old result reader.new }
    {
        let pictures = reader.ue_to(MOST)? as u16;
        Ok(Period { pictures })
    }

    // Writes it as a ue field.
    pub fn write(&self, writer: &mut Writer)
        ensures { sheet writer.new ≡ put (coded period_code self.now.pictures) (sheet writer.old) }
    {
        writer.ue(u32::from(self.pictures));
    }
}
