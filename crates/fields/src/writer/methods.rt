// The methods of a writer: each writes a field where it fits, and goes on behind it in any case.
ghost use Rattle.std.specs.Prelude.{◌≡◌, ℕ, ◌+◌, ◌-◌, ◌*◌, ◌/◌, ◌%◌, ◌^◌, ◌<◌, ◌≤◌, [], length};
ghost use Rattle.std.specs.Int.{w32};
ghost use Rattle.std.proofs.Common.{of_z};
ghost use Rattle.layouts.specs.Bits.{bit, word, bits_of};
ghost use Rattle.layouts.specs.Layout.{u, ue, fixed, coded, closing, extension};
ghost use Rattle.fields.specs.Writing.{sheet, put, laid, lays};

use crate::LONGEST;
use crate::closing::closing_bits;
use crate::writer::Writer;

impl<'a> Writer<'a> {
    pub fn new(bytes: &'a mut [u8]) -> Writer<'a>
        ensures place { result.at ≡ 0 }
        ensures bytes { result.bytes.now ≡ bytes.old }
        ensures lent { result.bytes.ghost_name ≡ bytes.entry.ghost_name }
    {
        Writer { bytes, at: 0 }
    }

    // The bits that were written, those that found no room among them.
    pub fn len(&self) -> usize
        ensures { result ≡ (sheet self.now).place }
    {
        self.at
    }

    // The `width` lowest bits of `value`, highest first; a width above 32 is none.
    pub fn bits(&mut self, width: u32, value: u32)
        ensures after { sheet self.new ≡ put (coded (fixed width) value) (sheet self.old) }
    {
        self.word(digits(width), u64::from(value));
    }

    pub fn flag(&mut self, on: bool)
        ensures after { sheet self.new ≡ put (coded (u 1) (bit on)) (sheet self.old) }
    {
        self.bits(1, u32::from(on));
    }

    // A signed number of 32 bits, in two's complement.
    pub fn signed(&mut self, value: i32)
        ensures after { sheet self.new ≡ put (coded (u 32) (of_z w32 value)) (sheet self.old) }
    {
        self.bits(32, value.cast_unsigned());
    }

    // A ue field: as many zeros as `value + 1` has digits behind its first, and those digits. 2^32 - 1 has no code, and nothing is written.
    pub fn ue(&mut self, value: u32)
        ensures after { sheet self.new ≡ put (coded ue value) (sheet self.old) }
    {
        self.word(ue_width(value), u64::from(value) + 1);
    }

    // The payload ends here: a one and zeros up to the end of the byte, or nothing where a byte ends.
    #[tactic(auto, using(crate::proofs::Sheets::closings))]
    pub fn close(&mut self)
        ensures after { sheet self.new ≡ put (closing self.old.at) (sheet self.old) }
    {
        let (width, value) = closing_bits(self.at);
        self.word(width, u64::from(value));
    }

    // The same after an extension bit, which is written as 0.
    pub fn extension(&mut self)
        ensures after { sheet self.new ≡ lays extension [] (sheet self.old) }
    {
        self.bits(1, 0);
        self.close();
    }

    // The `width` lowest bits of `value`, in one piece: written where all of them fit, and counted in any case.
    #[tactic(auto, using(crate::proofs::Sheets::wording))]
    fn word(&mut self, width: u32, value: u64)
        requires { width ≤ 64 }
        ensures { sheet self.new ≡ put (word width value) (sheet self.old) }
    {
        let at = self.at;
        let end = at.saturating_add(width as usize);
        if end <= self.bytes.len().min(LONGEST) * 8 {
            lay(self.bytes, at, width, value);
        }
        self.at = end;
    }
}

// How many bits of a number of `width` bits are written: none of one above 32.
#[tactic(auto, using(crate::proofs::Sheets::widths))]
fn digits(width: u32) -> u32
    ensures digits { (v : ℕ) → word result v ≡ coded (fixed width) v }
    ensures few { result ≤ 64 }
{
    if width > 32 { 0 } else { width }
}

// How many digits of `value + 1` make a ue field, the zeros before it among them.
#[tactic(auto, using(crate::proofs::Sheets::widths))]
fn ue_width(value: u32) -> u32
    ensures digits { word result (value + 1) ≡ coded ue value }
    ensures few { result ≤ 64 }
{
    if value == u32::MAX {
        return 0;
    }
    2 * (value + 1).ilog2() + 1
}

// Puts the `width` lowest bits of `value` in place of the bits from `at` on, a byte at a time.
#[tactic(auto, using(crate::proofs::Laid::laying))]
fn lay(bytes: &mut [u8], at: usize, width: u32, value: u64)
    requires { (at + width ≤ 8 * length bytes.old) × ((at + width ≤ 524280) × (width ≤ 64)) }
    ensures { bits_of bytes.new ≡ laid at (word width value) (bits_of bytes.old) }
{
    let mut left = width;
    let mut free = 8 - (at % 8) as u32;
    // it stops by what is left, and not by where the field ends: so a field that is known to lie in one byte is no loop
    for i in at / 8..bytes.len() {
        let n = left.min(free);
        left -= n;
        bytes[i] = patched(bytes[i], free - n, n, value >> left);
        if left == 0 {
            break;
        }
        free = 8;
    }
}

// A byte with the `n` lowest bits of `value` in place of those above its `low` lowest.
#[tactic(auto, using(crate::proofs::Laid::laying))]
fn patched(byte: u8, low: u32, n: u32, value: u64) -> u8
    requires { low + n ≤ 8 }
    ensures { word 8 result ≡ laid (8 - (low + n)) (word n value) (word 8 byte) }
{
    let byte = u64::from(byte);
    let above = byte >> (low + n);
    let upper = above << n | value & ((1 << n) - 1);
    let joined = upper << low | byte & ((1 << low) - 1);
    (joined & 0xff) as u8
}
