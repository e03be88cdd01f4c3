// Fields whose numbers are judged.
ghost use Rattle.std.specs.Prelude.{◌^◌, ◌<◌, ◌≤◌, IfOk};
ghost use Rattle.layouts.specs.Layout.{fixed, within, positive, counted};
ghost use Rattle.fields.specs.Reading.{Found, Reads};

use crate::reader::Reader;
use layouts::fault::FieldFault;

impl<'a> Reader<'a> {
    // The next `width` bits as a number above 0.
    pub fn positive(&mut self, width: u32) -> Result<u32, FieldFault>
        ensures reads { Reads (within (fixed width) positive) self.old result self.new }
        ensures fits { IfOk result (λ v. (0 < v) × (v < 2 ^ width)) }
    {
        let (value, end) = self.find_positive(width)?;
        self.at = end;
        Ok(value)
    }

    // A count of `width` bits: none are out of range, and more than `most` past the limit.
    pub fn count(&mut self, width: u32, most: u32) -> Result<u32, FieldFault>
        ensures reads { Reads (within (fixed width) (counted most)) self.old result self.new }
        ensures fits { IfOk result (λ v. (0 < v) × (v ≤ most)) }
    {
        let (value, end) = self.find_positive(width)?;
        if value > most {
            return Err(FieldFault::PastLimit(self.at));
        }
        self.at = end;
        Ok(value)
    }

    // The number above 0 in the next `width` bits, and the bit behind them.
    fn find_positive(&self, width: u32) -> Result<(u32, usize), FieldFault>
        ensures found { Found (within (fixed width) positive) self.now.bytes.now self.now.at result }
        ensures fits { IfOk result (λ a. (0 < a.0) × (a.0 < 2 ^ width)) }
    {
        let (value, end) = self.find_bits(width)?;
        if value == 0 {
            return Err(FieldFault::OutOfRange(self.at));
        }
        Ok((value, end))
    }
}
