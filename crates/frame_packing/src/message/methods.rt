// Making the parts of a frame packing.
ghost use Rattle.std.specs.Prelude.{◌≡◌};
ghost use Rattle.frame_packing.specs.PackingIds.{reserved_id};
ghost use Rattle.frame_packing.specs.FramePacking.{MakesId, MakesGrid, MakesArrangement};

use crate::message::parts::gridless;
use crate::message::{Arrangement, GridPositions, PackingFlags, PackingId};
use layouts::fault::FieldFault;
use records::period::Period;

impl PackingId {
    // An id; a reserved one is out of range.
    pub fn new(number: u32) -> Result<PackingId, FieldFault>
        ensures { MakesId number result }
    {
        if PackingId::is_reserved(number) {
            return Err(FieldFault::OutOfRange(0));
        }
        Ok(PackingId { number })
    }

    // Whether an id is reserved: from 256 to 511, and from 2,147,483,648 on.
    pub fn is_reserved(number: u32) -> bool
        ensures { result ≡ reserved_id number }
    {
        matches!(number, 256..=511 | 2_147_483_648..=u32::MAX)
    }
}

impl GridPositions {
    // Grid positions; one above 15 is out of range.
    pub fn new(
        frame0_x: u8,
        frame0_y: u8,
        frame1_x: u8,
        frame1_y: u8,
    ) -> Result<GridPositions, FieldFault>
        ensures { MakesGrid frame0_x frame0_y frame1_x frame1_y result }
    {
        if frame0_x > 15 || frame0_y > 15 || frame1_x > 15 || frame1_y > 15 {
            return Err(FieldFault::OutOfRange(0));
        }
        Ok(GridPositions {
            frame0_x,
            frame0_y,
            frame1_x,
            frame1_y,
        })
    }
}

impl Arrangement {
    // An arrangement. Out of range are a type above 127, an interpretation above 63,
    // and grid positions where such an arrangement has none or none where it has them.
    pub fn new(
        arrangement_type: u8,
        quincunx_sampling: bool,
        content_interpretation: u8,
        flags: PackingFlags,
        grid: Option<GridPositions>,
        period: Period,
    ) -> Result<Arrangement, FieldFault>
        ensures { MakesArrangement arrangement_type quincunx_sampling content_interpretation flags grid period result }
    {
        if arrangement_type > 127
            || content_interpretation > 63
            || grid.is_some() == gridless(quincunx_sampling, arrangement_type)
        {
            return Err(FieldFault::OutOfRange(0));
        }
        Ok(Arrangement {
            arrangement_type,
            quincunx_sampling,
            content_interpretation,
            flags,
            grid,
            period,
        })
    }
}
