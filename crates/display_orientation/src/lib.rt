// Type 47, display orientation: how the picture is flipped and turned before it is shown.
#![tactic(auto)]

ghost use Rattle.std.specs.Prelude.{◌^◌, ◌<◌};

use records::period::Period;
use std::fmt;

pub mod examples;
pub mod kind;
pub mod record;

#[derive(Clone, Copy, PartialEq, Eq, Debug)]
pub struct DisplayOrientation {
    pub horizontal_flip: bool,
    pub vertical_flip: bool,
    // anticlockwise, in steps of 360 / 65,536 degrees
    pub rotation: u16,
    pub period: Period,
    // the type says it; a specification, where all numbers are ℕ, does not see that
    ghost fits: { rotation < 2 ^ 16 },
}

impl DisplayOrientation {
    fn flips(&self) -> &'static str {
        match (self.horizontal_flip, self.vertical_flip) {
            (false, false) => "not flipped",
            (true, false) => "flipped left to right",
            (false, true) => "flipped upside down",
            (true, true) => "flipped left to right and upside down",
        }
    }
}

impl fmt::Display for DisplayOrientation {
    fn fmt<W: fmt::Write>(&self, f: &mut fmt::Formatter<W>) -> fmt::Result {
        let flips = self.flips();
        let hundredths = u32::from(self.rotation) * 36_000 / 65_536;
        let degrees = hundredths / 100;
        let rest = hundredths % 100;
        let period = self.period.pictures;
        write!(
            f,
            "display orientation: {flips}, turned {degrees}.{rest:02} degrees anticlockwise, period {period}"
        )
    }
}
