// Type 154, sphere rotation: how the sphere is turned before it is shown.
#![tactic(auto)]

ghost use Rattle.sphere_rotation.specs.Angles.{Turn, Tilt};

use std::fmt;

pub mod examples;
pub mod kind;
mod methods;
pub mod record;

// Angles are in steps of 1 / 65,536 degree.
#[derive(Clone, Copy, PartialEq, Eq, Debug)]
pub struct SphereRotation {
    // whether it stays in force beyond its picture
    pub persistence: bool,
    // from -180 degrees to below 180 degrees
    pub yaw: i32,
    // from -90 to 90 degrees
    pub pitch: i32,
    // from -180 degrees to below 180 degrees
    pub roll: i32,
    ghost turns: { Turn yaw × (Tilt pitch × Turn roll) },
}

// A yaw or a roll is from -180 degrees to below 180 degrees.
const LEAST_TURN: i32 = -180 * 65_536;

const GREATEST_TURN: i32 = 180 * 65_536 - 1;

// A pitch is from -90 to 90 degrees.
const LEAST_TILT: i32 = -90 * 65_536;

const GREATEST_TILT: i32 = 90 * 65_536;

// An angle, told in degrees, to hundredths towards 0.
#[derive(Clone, Copy)]
struct Degrees(i32);

impl fmt::Display for Degrees {
    fn fmt<W: fmt::Write>(&self, f: &mut fmt::Formatter<W>) -> fmt::Result {
        let sign = if self.0 < 0 { "-" } else { "" };
        let steps = self.0.unsigned_abs();
        let whole = steps / 65_536;
        let rest = steps % 65_536 * 100 / 65_536;
        write!(f, "{sign}{whole}.{rest:02} degrees")
    }
}

impl fmt::Display for SphereRotation {
    fn fmt<W: fmt::Write>(&self, f: &mut fmt::Formatter<W>) -> fmt::Result {
        let yaw = Degrees(self.yaw);
        let pitch = Degrees(self.pitch);
        let roll = Degrees(self.roll);
        let persistence = u8::from(self.persistence);
        write!(
            f,
            "sphere rotation: yaw {yaw}, pitch {pitch}, roll {roll}, persistence {persistence}"
        )
    }
}
