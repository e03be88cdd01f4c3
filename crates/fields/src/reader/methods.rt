// The methods of a reader: each answers a field and goes on behind it, or refuses it and stays.
ghost use Rattle.std.specs.Prelude.{◌≡◌, ℕ, ◌+◌, ◌-◌, ◌*◌, ◌^◌, ◌<◌, ◌≤◌, min, length, take, drop, ◌≤ℤ◌, IfOk};
ghost use Rattle.layouts.specs.Bits.{number, bits_of, zeros};
ghost use Rattle.layouts.specs.Layout.{fixed, u, ue, within, at_most, between, closes, extends, from};
ghost use Rattle.fields.specs.Reading.{left, Found, Reads, ReadsFlag, ReadsSigned};

use crate::LONGEST;
use crate::closing::closing_bits;
use crate::reader::Reader;
use layouts::fault::FieldFault;

// A method finds a number, judges it and goes on: each has a judgement of its own, which its contract names, and with a
// closure for it none would be shorter. The three that are inlined are short where a record's fields stand at known places.
impl<'a> Reader<'a> {
    // A reader at the first bit of a payload. It looks at the first 65,535 bytes: no payload has more.
    pub fn new(bytes: &'a [u8]) -> Reader<'a>
        ensures { left result ≡ from (take 65535 bytes.now) 0 }
    {
        Reader {
            bytes: limited(bytes),
            at: 0,
        }
    }

    // The next `width` bits as a number, highest first; a width above 32 is out of range.
    pub fn bits(&mut self, width: u32) -> Result<u32, FieldFault>
        ensures reads { Reads (fixed width) self.old result self.new }
        ensures fits { IfOk result (λ v. v < 2 ^ width) }
    {
        let (value, end) = self.find_bits(width)?;
        self.at = end;
        Ok(value)
    }

    pub fn flag(&mut self) -> Result<bool, FieldFault>
        ensures { ReadsFlag self.old result self.new }
    {
        Ok(self.bits(1)? == 1)
    }

    // A signed number of 32 bits, in two's complement.
    pub fn signed(&mut self) -> Result<i32, FieldFault>
        ensures { ReadsSigned (u 32) self.old result self.new }
    {
        Ok(self.bits(32)?.cast_signed())
    }

    // A signed number of 32 bits, from `low` to `high`.
    #[inline(always)]
    #[tactic(auto, unfolding(layouts::specs::Layout::between))]
    pub fn signed_within(&mut self, low: i32, high: i32) -> Result<i32, FieldFault>
        ensures reads { ReadsSigned (within (u 32) (between low high)) self.old result self.new }
        ensures fits { IfOk result (λ x. (low ≤ℤ x) × (x ≤ℤ high)) }
    {
        let (bits, end) = self.find_bits(32)?;
        let value = bits.cast_signed();
        if !(low..=high).contains(&value) {
            return Err(FieldFault::OutOfRange(self.at));
        }
        self.at = end;
        Ok(value)
    }

    // A ue field: some zeros, a one, and as many bits as there were zeros.
    pub fn ue(&mut self) -> Result<u32, FieldFault>
        ensures { Reads ue self.old result self.new }
    {
        let (value, behind) = self.find_ue()?;
        self.at = behind;
        Ok(value)
    }

    // A ue field of at most `most`.
    pub fn ue_to(&mut self, most: u32) -> Result<u32, FieldFault>
        ensures reads { Reads (within ue (at_most most)) self.old result self.new }
        ensures fits { IfOk result (λ v. v ≤ most) }
    {
        let (value, end) = self.find_ue()?;
        if value > most {
            return Err(FieldFault::OutOfRange(self.at));
        }
        self.at = end;
        Ok(value)
    }

    // The payload ends here: with a one and zeros up to the end of the byte, or where a byte ends.
    #[tactic(auto, using(layouts::proofs::Closes::closing_left))]
    pub fn close(self) -> Result<(), FieldFault>
        ensures { result ≡ closes (left self.entry) }
    {
        let room = self.bytes.len() * 8 - self.at;
        let (width, value) = closing_bits(self.at);
        if room != width as usize || self.window(self.at, width) != value {
            return Err(FieldFault::Ending(self.at));
        }
        Ok(())
    }

    // The same after an extension bit, which lets anything follow where it is set.
    pub fn extension(mut self) -> Result<(), FieldFault>
        ensures { result ≡ extends (left self.entry) }
    {
        if self.flag()? { Ok(()) } else { self.close() }
    }
}

impl<'a> Reader<'a> {
    // The number in the next `width` bits, and the bit behind them; a pair here and below, and no struct, since each caller
    // takes it apart at once.
    #[inline(always)]
    #[tactic(auto, using(layouts::proofs::Steps::fixed_left))]
    pub(super) fn find_bits(&self, width: u32) -> Result<(u32, usize), FieldFault>
        ensures found { Found (fixed width) self.now.bytes.now self.now.at result }
        ensures fits { IfOk result (λ a. a.0 < 2 ^ width) }
    {
        if width > 32 {
            return Err(FieldFault::OutOfRange(self.at));
        }
        let end = self.at + width as usize;
        if end > self.bytes.len() * 8 {
            return Err(FieldFault::Short(self.at));
        }
        Ok((self.window(self.at, width), end))
    }

    // The ue field that comes next, and the bit behind it.
    #[inline(always)]
    #[tactic(auto, using(layouts::proofs::Golomb::ue_left))]
    fn find_ue(&self) -> Result<(u32, usize), FieldFault>
        ensures { Found ue self.now.bytes.now self.now.at result }
    {
        let zeros = self.zeros();
        if zeros == 32 {
            return Err(FieldFault::OutOfRange(self.at));
        }
        let end = self.at + 2 * zeros as usize + 1;
        if end > self.bytes.len() * 8 {
            return Err(FieldFault::Short(self.at));
        }
        let value = self.window(self.at + zeros as usize, zeros + 1) - 1;
        Ok((value, end))
    }

    // How many zeros come next, up to 32.
    #[tactic(auto, using(layouts::proofs::Golomb::ue_left))]
    fn zeros(&self) -> u32
        ensures { result ≡ min 32 (zeros (left self.now).rest) }
    {
        let ahead = (self.bytes.len() * 8 - self.at).min(32) as u32;
        let head = self.window(self.at, ahead);
        head.leading_zeros() - (32 - ahead)
    }

    // The number in the `width` bits from the bit `at` on: the bytes that hold them are joined, and what stands after and before is cut off.
    #[tactic(auto, using(crate::proofs::Windows::windows))]
    fn window(&self, at: usize, width: u32) -> u32
        requires { (at + width ≤ 8 * length self.now.bytes.now) × (width ≤ 32) }
        ensures { result ≡ number (take width (drop at (bits_of self.now.bytes.now))) }
    {
        let end = at + width as usize;
        let first = at / 8;
        let last = (end + 7) / 8;
        let mut joined: u64 = 0;
        for b in &self.bytes[first..last] {
            joined = joined << 8 | u64::from(*b);
        }
        let cut = joined >> (last * 8 - end);
        (cut & ((1 << width) - 1)) as u32
    }
}

// The first 65,535 bytes.
#[tactic(auto, using(layouts::proofs::Steps::take_min))]
fn limited(bytes: &[u8]) -> &[u8]
    ensures value { result.now ≡ take 65535 bytes.now }
    ensures bound { length result.now ≤ 65535 }
{
    let len = bytes.len().min(LONGEST);
    &bytes[..len]
}
