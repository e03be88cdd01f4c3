// How a packed region is turned and mirrored to be the projected one.
ghost use Rattle.std.specs.Prelude.{◌≡◌};
ghost use Rattle.regionwise_packing.specs.Transforms.{MakesTransform, transform_number};

use layouts::fault::FieldFault;

// It is turned anticlockwise by what the name says, and then mirrored from left to right where the name says so.
#[derive(Clone, Copy, PartialEq, Eq, Debug)]
pub enum Transform {
    Unturned = 0,
    Mirrored = 1,
    HalfTurn = 2,
    HalfTurnMirrored = 3,
    QuarterTurnMirrored = 4,
    QuarterTurn = 5,
    ThreeQuarterTurnMirrored = 6,
    ThreeQuarterTurn = 7,
}

impl TryFrom<u8> for Transform {
    type Error = FieldFault;

    ghost try_from_gives = { MakesTransform };

    fn try_from(number: u8) -> Result<Transform, FieldFault> {
        match number {
            0 => Ok(Transform::Unturned),
            1 => Ok(Transform::Mirrored),
            2 => Ok(Transform::HalfTurn),
            3 => Ok(Transform::HalfTurnMirrored),
            4 => Ok(Transform::QuarterTurnMirrored),
            5 => Ok(Transform::QuarterTurn),
            6 => Ok(Transform::ThreeQuarterTurnMirrored),
            7 => Ok(Transform::ThreeQuarterTurn),
            _ => Err(FieldFault::OutOfRange(0)),
        }
    }
}

impl From<Transform> for u8 {
    ghost from_gives = { λ t n. n ≡ transform_number t };

    fn from(transform: Transform) -> u8 {
        transform as u8
    }
}
