// Type 45, frame packing arrangement: how two frames, one for each eye, are packed into the picture.
ghost use Rattle.std.specs.Prelude.{◌≡◌, ◌^◌, ◌<◌, false, not, is_some};
ghost use Rattle.frame_packing.specs.PackingIds.{reserved_id, gridless};

use records::period::Period;
use std::fmt;

mod methods;
mod parts;
pub mod record;

// An id that is not reserved.
#[derive(Clone, Copy, PartialEq, Eq, Debug)]
pub struct PackingId {
    pub number: u32,
    ghost unreserved: { reserved_id number ≡ false },
}

#[derive(Clone, Copy, PartialEq, Eq, Debug)]
pub struct PackingFlags {
    // one of the two frames is flipped from how it was
    pub spatial_flipping: bool,
    // frame 0 is the flipped one; no `Option` with the flag before it, since the bit is kept as it is where none is flipped
    pub frame0_flipped: bool,
    // the fields of the picture belong to different eyes
    pub field_views: bool,
    // this picture is frame 0, where the frames come one after the other
    pub current_frame_is_frame0: bool,
    // frame 0 is decoded without frame 1
    pub frame0_self_contained: bool,
    // frame 1 is decoded without frame 0
    pub frame1_self_contained: bool,
}

// Where the samples of the two frames lie, in sixteenths of a sample.
#[derive(Clone, Copy, PartialEq, Eq, Debug)]
pub struct GridPositions {
    pub frame0_x: u8,
    pub frame0_y: u8,
    pub frame1_x: u8,
    pub frame1_y: u8,
    ghost fits: { (frame0_x < 2 ^ 4) × ((frame0_y < 2 ^ 4) × ((frame1_x < 2 ^ 4) × (frame1_y < 2 ^ 4))) },
}

#[derive(Clone, Copy, PartialEq, Eq, Debug)]
pub struct Arrangement {
    // a number, since 8 to 127 are reserved and kept as they are: `Reserved(n)` of an enum could hold a number that has a case of its own
    pub arrangement_type: u8,
    pub quincunx_sampling: bool,
    // which frame is for which eye; a number, since 3 to 63 are reserved and kept as they are: `Reserved(n)` of an enum could hold a number that has a case of its own
    pub content_interpretation: u8,
    pub flags: PackingFlags,
    // left out by a quincunx sampling and by type 5
    pub grid: Option<GridPositions>,
    pub period: Period,
    ghost fits: { (arrangement_type < 2 ^ 7) × (content_interpretation < 2 ^ 6) },
    ghost gridded: { is_some grid ≡ not (gridless quincunx_sampling arrangement_type) },
}

// A message: it brings an arrangement of its id into force, or ends the packings in force. A cancel has an id too.
#[derive(Clone, Copy, PartialEq, Eq, Debug)]
pub struct FramePacking {
    pub id: PackingId,
    // none where it cancels
    pub arrangement: Option<Arrangement>,
}

impl Arrangement {
    fn name(&self) -> &'static str {
        match self.arrangement_type {
            0 => "frames interleaved as a checkerboard",
            1 => "frames interleaved by columns",
            2 => "frames interleaved by rows",
            3 => "frames side by side",
            4 => "frames one above the other",
            5 => "frames one after the other",
            6 => "one frame, not packed",
            7 => "frames in tiles",
            _ => "frames packed in a reserved way",
        }
    }

    fn eyes(&self) -> &'static str {
        match self.content_interpretation {
            0 => "not told which frame is for which eye",
            1 => "frame 0 for the left eye",
            2 => "frame 0 for the right eye",
            _ => "a reserved interpretation",
        }
    }
}

impl fmt::Display for PackingId {
    fn fmt<W: fmt::Write>(&self, f: &mut fmt::Formatter<W>) -> fmt::Result {
        let number = self.number;
        write!(f, "{number}")
    }
}

impl fmt::Display for PackingFlags {
    fn fmt<W: fmt::Write>(&self, f: &mut fmt::Formatter<W>) -> fmt::Result {
        match (self.spatial_flipping, self.frame0_flipped) {
            (false, _) => write!(f, "no frame flipped")?,
            (true, true) => write!(f, "frame 0 flipped")?,
            (true, false) => write!(f, "frame 1 flipped")?,
        }
        if self.field_views {
            write!(f, ", a field for each eye")?;
        }
        if self.current_frame_is_frame0 {
            write!(f, ", this picture is frame 0")?;
        }
        if self.frame0_self_contained {
            write!(f, ", frame 0 self-contained")?;
        }
        if self.frame1_self_contained {
            write!(f, ", frame 1 self-contained")?;
        }
        Ok(())
    }
}

impl fmt::Display for GridPositions {
    fn fmt<W: fmt::Write>(&self, f: &mut fmt::Formatter<W>) -> fmt::Result {
        let x0 = self.frame0_x;
        let y0 = self.frame0_y;
        let x1 = self.frame1_x;
        let y1 = self.frame1_y;
        write!(
            f,
            "grid positions {x0}, {y0} and {x1}, {y1} sixteenths of a sample"
        )
    }
}

impl fmt::Display for Arrangement {
    fn fmt<W: fmt::Write>(&self, f: &mut fmt::Formatter<W>) -> fmt::Result {
        let name = self.name();
        let eyes = self.eyes();
        let flags = self.flags;
        write!(f, "frame packing: {name}, {eyes}, {flags}")?;
        if self.quincunx_sampling {
            write!(f, ", quincunx sampling")?;
        }
        if let Some(grid) = self.grid {
            write!(f, ", {grid}")?;
        }
        let period = self.period.pictures;
        write!(f, ", period {period}")
    }
}
