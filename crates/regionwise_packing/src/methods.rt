// Making a region-wise packing, reading it and writing it.
ghost use Rattle.std.specs.Prelude.{◌≡◌, ℕ, ◌^◌, ◌≤◌, true, length, IfOk};
ghost use Rattle.bounded.specs.Bounded.{items};
ghost use Rattle.fields.specs.Groups.{ReadsGroup, WritesGroup};
ghost use Rattle.layouts.specs.Layout.{times};
ghost use Rattle.fields.specs.Writing.{sheet};
ghost use Rattle.regionwise_packing.specs.declared.shapes.Size.{Size as SizeOf};
ghost use Rattle.regionwise_packing.specs.Regions.{Sized, region as region_fields};
ghost use Rattle.regionwise_packing.specs.Numbers.{regions_numbers, all_inside};
ghost use Rattle.regionwise_packing.specs.Packing.{packing, content_numbers, ReadsSizes, Gathers, MakesPacking};

use crate::RegionwisePacking;
use crate::region::Region;
use crate::shapes::{Size, lacks_area};
use bounded::Bounded;
use fields::reader::Reader;
use fields::writer::Writer;
use layouts::fault::FieldFault;

impl RegionwisePacking {
    // A packing of 1 to 32 regions inside the packed picture, where both pictures have an area.
    pub fn new(
        persistence: bool,
        matching: bool,
        projected: Size<u32>,
        packed: Size<u16>,
        regions: &[Region],
    ) -> Result<RegionwisePacking, FieldFault>
        ensures { MakesPacking persistence matching projected packed regions.now result }
    {
        if regions.is_empty() {
            return Err(FieldFault::OutOfRange(0));
        }
        if regions.len() > 32 {
            return Err(FieldFault::PastLimit(0));
        }
        if lacks_area(projected, packed) {
            return Err(FieldFault::OutOfRange(0));
        }
        let regions = gathered(packed, regions).ok_or(FieldFault::PastLimit(0))?;
        Ok(RegionwisePacking {
            persistence,
            matching,
            projected,
            packed,
            regions,
        })
    }

    // The fields behind the cancel bit.
    pub(crate) fn read_content(reader: &mut Reader) -> Result<RegionwisePacking, FieldFault>
        ensures { ReadsGroup packing content_numbers reader.old result reader.new }
    {
        let persistence = reader.flag()?;
        let matching = reader.flag()?;
        reader.bits(5)?;
        let count = reader.count(8, 32)?;
        let (projected, packed) = read_sizes(reader)?;
        let regions = read_regions(reader, count, packed)?;
        Ok(RegionwisePacking {
            persistence,
            matching,
            projected,
            packed,
            regions,
        })
    }

    pub(crate) fn write_content(&self, writer: &mut Writer)
        ensures after { WritesGroup packing (content_numbers self.now) (sheet writer.old) (sheet writer.new) }
    {
        writer.flag(self.persistence);
        writer.flag(self.matching);
        writer.bits(5, 0);
        writer.bits(8, self.regions.len() as u32);
        writer.bits(32, self.projected.width);
        writer.bits(32, self.projected.height);
        writer.bits(16, u32::from(self.packed.width));
        writer.bits(16, u32::from(self.packed.height));
        write_regions(writer, &self.regions);
    }
}

// The regions, where all of them lie inside the packed picture.
#[tactic(auto, using(bounded::proofs::Cells::pushed))]
fn gathered(packed: Size<u16>, regions: &[Region]) -> Option<Bounded<Region, 32>>
    requires { length regions.now ≤ 32 }
    ensures { Gathers packed regions.now result }
{
    let mut held = Bounded::new();
    for region in regions {
        if !region.is_inside(packed) {
            return None;
        }
        // there is room for each, since they are 32 at most
        let _ = held.push(*region);
    }
    Some(held)
}

// The sizes of the projected picture and of the packed one.
fn read_sizes(reader: &mut Reader) -> Result<(Size<u32>, Size<u16>), FieldFault>
    ensures reads { ReadsSizes reader.old result reader.new }
    ensures sized { IfOk result (λ x. Sized (2 ^ 32) x.0 × Sized (2 ^ 16) x.1) }
{
    let projected = Size {
        width: reader.positive(32)?,
        height: reader.positive(32)?,
    };
    let packed = Size {
        width: reader.positive(16)? as u16,
        height: reader.positive(16)? as u16,
    };
    Ok((projected, packed))
}

// So many regions, one after the other.
fn read_regions(
    reader: &mut Reader,
    count: u32,
    picture: Size<u16>,
) -> Result<Bounded<Region, 32>, FieldFault>
    requires { count ≤ 32 }
    ensures reads { ReadsGroup (times count (region_fields picture)) (λ b. regions_numbers (items b)) reader.old result reader.new }
    ensures inside { IfOk result (λ b. (length (items b) ≡ count) × (all_inside picture (items b) ≡ true)) }
{
    let mut regions = Bounded::new();
    // a region is read again and again, there is nothing to go over
    for _ in 0..count {
        let region = Region::read(reader, picture)?;
        // there is room for each, since they are 32 at most
        let _ = regions.push(region);
    }
    Ok(regions)
}

// The regions, one after the other.
fn write_regions(writer: &mut Writer, regions: &Bounded<Region, 32>)
    ensures after { (picture : SizeOf ℕ) → WritesGroup (times (length (items regions.now)) (region_fields picture)) (regions_numbers (items regions.now)) (sheet writer.old) (sheet writer.new) }
{
    for region in *regions {
        region.write(writer);
    }
}
