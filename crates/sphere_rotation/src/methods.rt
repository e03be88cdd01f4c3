// Making a sphere rotation.
ghost use Rattle.std.specs.Prelude.{◌↔◌, IsTrue};
ghost use Rattle.sphere_rotation.specs.Angles.{Turn, Tilt};
ghost use Rattle.sphere_rotation.specs.SphereRotation.{MakesRotation};

use crate::{GREATEST_TILT, GREATEST_TURN, LEAST_TILT, LEAST_TURN, SphereRotation};
use layouts::fault::FieldFault;

impl SphereRotation {
    // A rotation by these angles; one outside its range is refused.
    pub fn new(
        persistence: bool,
        yaw: i32,
        pitch: i32,
        roll: i32,
    ) -> Result<SphereRotation, FieldFault>
        ensures { MakesRotation persistence yaw pitch roll result }
    {
        if !is_turn(yaw) || !is_tilt(pitch) || !is_turn(roll) {
            return Err(FieldFault::OutOfRange(0));
        }
        Ok(SphereRotation {
            persistence,
            yaw,
            pitch,
            roll,
        })
    }
}

// Each range has a function of its own, that says a definition: one for both would take the two constants at each of three calls. Without the two, three ranges in one `if` want an answer by hand.

// Whether an angle is in the range of a yaw or a roll.
fn is_turn(angle: i32) -> bool
    ensures { IsTrue result ↔ Turn angle }
{
    (LEAST_TURN..=GREATEST_TURN).contains(&angle)
}

// Whether an angle is in the range of a pitch.
fn is_tilt(angle: i32) -> bool
    ensures { IsTrue result ↔ Tilt angle }
{
    (LEAST_TILT..=GREATEST_TILT).contains(&angle)
}
