// The parts of a frame packing: how each is read and written, whatever follows it.
ghost use Rattle.std.specs.Prelude.{◌≡◌, false, not, is_some, IfOk, Some};
ghost use Rattle.fields.specs.Reading.{left};
ghost use Rattle.fields.specs.Writing.{sheet, lays};
ghost use Rattle.frame_packing.specs.FramePacking.{flags as flags_part, grid as grid_part, ending, content, flag_numbers, grid_numbers, period_numbers, content_numbers};
ghost use Rattle.frame_packing.specs.PackingIds.{gridless as gridless_of};
ghost use Rattle.fields.specs.Groups.{ReadsGroup, WritesGroup};
ghost use Rattle.records.specs.Record.{Decoded};

use crate::message::{Arrangement, GridPositions, PackingFlags};
use fields::reader::Reader;
use fields::writer::Writer;
use layouts::fault::FieldFault;
use records::period::Period;

impl PackingFlags {
    #[tactic(auto, unfolding(crate::specs::FramePacking::flags))]
    fn decode(reader: &mut Reader) -> Result<PackingFlags, FieldFault>
        ensures { ReadsGroup flags_part flag_numbers reader.old result reader.new }
    {
        let spatial_flipping = reader.flag()?;
        let frame0_flipped = reader.flag()?;
        let field_views = reader.flag()?;
        let current_frame_is_frame0 = reader.flag()?;
        let frame0_self_contained = reader.flag()?;
        let frame1_self_contained = reader.flag()?;
        Ok(PackingFlags {
            spatial_flipping,
            frame0_flipped,
            field_views,
            current_frame_is_frame0,
            frame0_self_contained,
            frame1_self_contained,
        })
    }

    #[tactic(auto, unfolding(crate::specs::FramePacking::flags))]
    fn encode(&self, writer: &mut Writer)
        ensures after { WritesGroup flags_part (flag_numbers self.now) (sheet writer.old) (sheet writer.new) }
    {
        writer.flag(self.spatial_flipping);
        writer.flag(self.frame0_flipped);
        writer.flag(self.field_views);
        writer.flag(self.current_frame_is_frame0);
        writer.flag(self.frame0_self_contained);
        writer.flag(self.frame1_self_contained);
    }
}

// Four fields of one width, as `Four` of region-wise packing has them. `Four` asks of its callers that the numbers are
// below a bound; a trait of both crates would be public, and no public function of this product has such a premise.
impl GridPositions {
    #[tactic(auto, unfolding(crate::specs::FramePacking::grid))]
    fn decode(reader: &mut Reader) -> Result<GridPositions, FieldFault>
        ensures { ReadsGroup (grid_part false) (λ g. grid_numbers (Some g)) reader.old result reader.new }
    {
        let frame0_x = reader.bits(4)? as u8;
        let frame0_y = reader.bits(4)? as u8;
        let frame1_x = reader.bits(4)? as u8;
        let frame1_y = reader.bits(4)? as u8;
        Ok(GridPositions {
            frame0_x,
            frame0_y,
            frame1_x,
            frame1_y,
        })
    }

    #[tactic(auto, unfolding(crate::specs::FramePacking::grid))]
    fn encode(&self, writer: &mut Writer)
        ensures after { WritesGroup (grid_part false) (grid_numbers (Some self.now)) (sheet writer.old) (sheet writer.new) }
    {
        writer.bits(4, u32::from(self.frame0_x));
        writer.bits(4, u32::from(self.frame0_y));
        writer.bits(4, u32::from(self.frame1_x));
        writer.bits(4, u32::from(self.frame1_y));
    }
}

// Whether such an arrangement has no grid positions.
pub(super) fn gridless(quincunx_sampling: bool, arrangement_type: u8) -> bool
    ensures { result ≡ gridless_of quincunx_sampling arrangement_type }
{
    quincunx_sampling || arrangement_type == 5
}

// The grid positions, unless there are none. A trait for all optional groups would be longer than the `if`s that it
// would say once. With `then` and `transpose` the proof asks where the reader stands after a closure that may not have
// run, which the search does not find; the `if` needs no answer.
#[tactic(auto, unfolding(crate::specs::FramePacking::grid))]
fn decode_grid(reader: &mut Reader, gridless: bool) -> Result<Option<GridPositions>, FieldFault>
    ensures reads { ReadsGroup (grid_part gridless) grid_numbers reader.old result reader.new }
    ensures some { IfOk result (λ g. is_some g ≡ not gridless) }
{
    if gridless {
        return Ok(None);
    }
    Ok(Some(GridPositions::decode(reader)?))
}

// Writes the grid positions, where there are any. It is an `if`, as reading them is: a trait for all optional groups
// would be longer.
#[tactic(auto, unfolding(crate::specs::FramePacking::grid))]
fn encode_grid(grid: Option<GridPositions>, writer: &mut Writer)
    ensures after { WritesGroup (grid_part (not (is_some grid))) (grid_numbers grid) (sheet writer.old) (sheet writer.new) }
{
    if let Some(positions) = grid {
        positions.encode(writer);
    }
}

// The reserved byte, the period and the extension bit.
fn decode_ending(mut reader: Reader) -> Result<Period, FieldFault>
    ensures { Decoded ending period_numbers (left reader.entry) result }
{
    reader.bits(8)?;
    let period = Period::read(&mut reader)?;
    reader.extension()?;
    Ok(period)
}

fn encode_ending(period: Period, writer: &mut Writer)
    ensures after { sheet writer.new ≡ lays ending (period_numbers period) (sheet writer.old) }
{
    writer.bits(8, 0);
    period.write(writer);
    writer.extension();
}

impl Arrangement {
    // What follows a cancel bit of 0, to the end of the payload.
    pub(super) fn decode(mut reader: Reader) -> Result<Arrangement, FieldFault>
        ensures { Decoded content content_numbers (left reader.entry) result }
    {
        let arrangement_type = reader.bits(7)? as u8;
        let quincunx_sampling = reader.flag()?;
        let content_interpretation = reader.bits(6)? as u8;
        let flags = PackingFlags::decode(&mut reader)?;
        let grid = decode_grid(&mut reader, gridless(quincunx_sampling, arrangement_type))?;
        let period = decode_ending(reader)?;
        Ok(Arrangement {
            arrangement_type,
            quincunx_sampling,
            content_interpretation,
            flags,
            grid,
            period,
        })
    }

    pub(super) fn encode(&self, writer: &mut Writer)
        ensures after { sheet writer.new ≡ lays content (content_numbers self.now) (sheet writer.old) }
    {
        writer.bits(7, u32::from(self.arrangement_type));
        writer.flag(self.quincunx_sampling);
        writer.bits(6, u32::from(self.content_interpretation));
        self.flags.encode(writer);
        encode_grid(self.grid, writer);
        encode_ending(self.period, writer);
    }
}
