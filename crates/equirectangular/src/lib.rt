// Type 150, equirectangular projection: the picture is a sphere by longitude and latitude.
#![tactic(auto)]

ghost use Rattle.std.specs.Prelude.{◌^◌, ◌<◌};

use std::fmt;

pub mod examples;
pub mod kind;
mod methods;
pub mod record;

// Samples at the left and right side of the picture that the sphere does not need.
#[derive(Clone, Copy, PartialEq, Eq, Debug)]
pub struct GuardBand {
    // what the samples are: 0 to 3 have a meaning; a number, since 4 to 7 are reserved and kept as they are: `Reserved(n)` of an enum could hold a number that has a case of its own
    pub guard_type: u8,
    // in luma samples
    pub left_width: u8,
    pub right_width: u8,
    // of the widths the types say it; a specification, where all numbers are ℕ, does not see that
    ghost fits: { (guard_type < 2 ^ 3) × ((left_width < 2 ^ 8) × (right_width < 2 ^ 8)) },
}

#[derive(Clone, Copy, PartialEq, Eq, Debug)]
pub struct Equirectangular {
    // whether it stays in force beyond its picture
    pub persistence: bool,
    pub guard_band: Option<GuardBand>,
}

impl fmt::Display for GuardBand {
    fn fmt<W: fmt::Write>(&self, f: &mut fmt::Formatter<W>) -> fmt::Result {
        let guard_type = self.guard_type;
        let left = self.left_width;
        let right = self.right_width;
        write!(
            f,
            "guard bands of {left} samples left and {right} samples right, type {guard_type}"
        )
    }
}

impl fmt::Display for Equirectangular {
    fn fmt<W: fmt::Write>(&self, f: &mut fmt::Formatter<W>) -> fmt::Result {
        write!(
            f,
            "equirectangular projection: a sphere by longitude and latitude, "
        )?;
        match self.guard_band {
            Some(band) => write!(f, "{band}")?,
            None => write!(f, "no guard bands")?,
        }
        let persistence = u8::from(self.persistence);
        write!(f, ", persistence {persistence}")
    }
}
