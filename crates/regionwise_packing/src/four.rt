// Four fields of one width, read and written as one.
ghost use Rattle.std.specs.Prelude.{◌≡◌, ℕ, ◌*◌, ◌^◌, ◌≤◌, IfOk};
ghost use Rattle.fields.specs.Writing.{sheet};
ghost use Rattle.regionwise_packing.specs.Makings.{Four as FourNumbers, ReadsShape, Goes, FourBelow, WritesFour, rectangle_four, sides_four};

use crate::shapes::{Rectangle, Sides};
use fields::reader::Reader;
use fields::writer::Writer;
use layouts::fault::FieldFault;

// A shape of four numbers, in the order in which they are read.
// The trait is the crate's own: `of` asks of its callers that the numbers are below a bound. One for the grid positions of frame packing too would be public, and no public function here asks such a thing.
pub(crate) trait Four: Copy {
    ghost numbers: { Self → FourNumbers };

    // what its numbers are below
    ghost bound: { ℕ };

    fn of(four: (u32, u32, u32, u32)) -> Self
        requires { FourBelow bound four }
        ensures { numbers result ≡ four };

    fn numbers(&self) -> (u32, u32, u32, u32)
        ensures { result ≡ numbers self.now };
}

impl Four for Sides<u8> {
    ghost numbers = { sides_four };

    ghost bound = { 2 ^ 8 };

    fn of((left, right, top, bottom): (u32, u32, u32, u32)) -> Sides<u8> {
        Sides {
            left: left as u8,
            right: right as u8,
            top: top as u8,
            bottom: bottom as u8,
        }
    }

    fn numbers(&self) -> (u32, u32, u32, u32) {
        (
            u32::from(self.left),
            u32::from(self.right),
            u32::from(self.top),
            u32::from(self.bottom),
        )
    }
}

// `Rectangle<u16>` and `Rectangle<u32>` have an `impl` each: one over any type of number would need a trait for numbers with a bound.
impl Four for Rectangle<u16> {
    ghost numbers = { rectangle_four };

    ghost bound = { 2 ^ 16 };

    fn of((width, height, top, left): (u32, u32, u32, u32)) -> Rectangle<u16> {
        Rectangle {
            width: width as u16,
            height: height as u16,
            top: top as u16,
            left: left as u16,
        }
    }

    fn numbers(&self) -> (u32, u32, u32, u32) {
        (
            u32::from(self.width),
            u32::from(self.height),
            u32::from(self.top),
            u32::from(self.left),
        )
    }
}

impl Four for Rectangle<u32> {
    ghost numbers = { rectangle_four };

    ghost bound = { 2 ^ 32 };

    fn of((width, height, top, left): (u32, u32, u32, u32)) -> Rectangle<u32> {
        Rectangle {
            width,
            height,
            top,
            left,
        }
    }

    fn numbers(&self) -> (u32, u32, u32, u32) {
        (self.width, self.height, self.top, self.left)
    }
}

// The shape of the four numbers of `width` bits that come next.
#[tactic(auto, using(crate::proofs::Bands::four_places))]
pub(crate) fn read<T: Four>(reader: &mut Reader, width: u32) -> Result<T, FieldFault>
    requires { (width ≤ 32) × (2 ^ width ≤ T.bound) }
    ensures reads { ReadsShape T.numbers width reader.old result reader.new }
    ensures fits { IfOk result (λ x. FourBelow (2 ^ width) (T.numbers x)) }
    ensures goes { Goes (4 * width) reader.old result reader.new }
{
    let first = reader.bits(width)?;
    let second = reader.bits(width)?;
    let third = reader.bits(width)?;
    let fourth = reader.bits(width)?;
    Ok(T::of((first, second, third, fourth)))
}

// Writes a shape as four numbers of `width` bits.
pub(crate) fn write<T: Four>(writer: &mut Writer, width: u32, shape: T)
    ensures after { WritesFour width (T.numbers shape) (sheet writer.old) (sheet writer.new) }
{
    let (first, second, third, fourth) = shape.numbers();
    writer.bits(width, first);
    writer.bits(width, second);
    writer.bits(width, third);
    writer.bits(width, fourth);
}
