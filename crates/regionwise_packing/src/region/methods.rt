// Making a region, reading it and writing it.
ghost use Rattle.std.specs.Prelude.{◌≡◌, ℕ, true, is_some, IfOk, if◌then◌else◌};
ghost use Rattle.fields.specs.Groups.{ReadsGroup, WritesGroup};
ghost use Rattle.fields.specs.Writing.{sheet};
ghost use Rattle.regionwise_packing.specs.declared.shapes.Size.{Size as SizeOf};
ghost use Rattle.regionwise_packing.specs.Regions.{inside as is_inside, guard_band_if, region as region_fields};
ghost use Rattle.regionwise_packing.specs.Numbers.{option_numbers, region_numbers};
ghost use Rattle.regionwise_packing.specs.Makings.{Goes, MakesRegion};

use crate::four;
use crate::guard_band::GuardBand;
use crate::region::Region;
use crate::shapes::{Rectangle, Size, lacks_area};
use crate::transform::Transform;
use fields::reader::Reader;
use fields::writer::Writer;
use layouts::fault::FieldFault;

impl Region {
    // A region; a transform above 7 and a rectangle of no area are out of range.
    pub fn new(
        transform: u8,
        projected: Rectangle<u32>,
        packed: Rectangle<u16>,
        guard: Option<GuardBand>,
    ) -> Result<Region, FieldFault>
        ensures { MakesRegion 0 transform projected packed guard result }
    {
        let transform = Transform::try_from(transform)?;
        if lacks_area(projected.size(), packed.size()) {
            return Err(FieldFault::OutOfRange(0));
        }
        Ok(Region {
            transform,
            projected,
            packed,
            guard,
        })
    }

    // Whether its packed rectangle lies inside the packed picture.
    pub fn is_inside(&self, picture: Size<u16>) -> bool
        ensures { result ≡ is_inside picture self.now.packed }
    {
        let right = u32::from(self.packed.left) + u32::from(self.packed.width);
        let bottom = u32::from(self.packed.top) + u32::from(self.packed.height);
        right <= u32::from(picture.width) && bottom <= u32::from(picture.height)
    }

    // The region that comes next, whole; then it is judged, and refused at its first bit.
    pub(crate) fn read(reader: &mut Reader, picture: Size<u16>) -> Result<Region, FieldFault>
        ensures reads { ReadsGroup (region_fields picture) region_numbers reader.old result reader.new }
        ensures inside { IfOk result (λ x. is_inside picture x.packed ≡ true) }
    {
        let start = reader.place();
        reader.bits(4)?;
        let transform = reader.bits(3)?;
        let guarded = reader.flag()?;
        let projected = four::read(reader, 32)?;
        let packed = four::read(reader, 16)?;
        let guard = read_guard(reader, guarded)?;
        let region = Region::new(transform as u8, projected, packed, guard).map_err(
            |_| FieldFault::OutOfRange(start),
        )?;
        if !region.is_inside(picture) {
            return Err(FieldFault::PastLimit(start));
        }
        Ok(region)
    }

    pub(crate) fn write(&self, writer: &mut Writer)
        ensures after { (picture : SizeOf ℕ) → WritesGroup (region_fields picture) (region_numbers self.now) (sheet writer.old) (sheet writer.new) }
    {
        writer.bits(4, 0);
        writer.bits(3, u32::from(u8::from(self.transform)));
        writer.flag(self.guard.is_some());
        four::write(writer, 32, self.projected);
        four::write(writer, 16, self.packed);
        write_guard(writer, self.guard);
    }
}

// A guard band, where there is one. A trait for all optional groups would be longer than the `if`s that it would say once.
// `guarded.then(|| ..).transpose()?` was tried: `then` does not say that the reader stays where it is when the closure is not called.
fn read_guard(reader: &mut Reader, guarded: bool) -> Result<Option<GuardBand>, FieldFault>
    ensures reads { ReadsGroup (guard_band_if guarded) option_numbers reader.old result reader.new }
    ensures some { IfOk result (λ g. is_some g ≡ guarded) }
    ensures goes { Goes (if guarded then 48 else 0) reader.old result reader.new }
{
    if guarded {
        let band = GuardBand::read(reader)?;
        Ok(Some(band))
    } else {
        Ok(None)
    }
}

// Writes a guard band, where there is one. It is an `if`, as reading one is: a trait for all optional groups would be longer.
fn write_guard(writer: &mut Writer, guard: Option<GuardBand>)
    ensures after { WritesGroup (guard_band_if (is_some guard)) (option_numbers guard) (sheet writer.old) (sheet writer.new) }
{
    if let Some(band) = guard {
        band.write(writer);
    }
}
