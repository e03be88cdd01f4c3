// Making a guard band.
ghost use Rattle.equirectangular.specs.Equirectangular.{MakesBand};

use crate::GuardBand;
use layouts::fault::FieldFault;

impl GuardBand {
    // A guard band of this type and these widths; a type above 7 is out of range.
    pub fn new(guard_type: u8, left_width: u8, right_width: u8) -> Result<GuardBand, FieldFault>
        ensures { MakesBand guard_type left_width right_width result }
    {
        // `regionwise_packing` asks the same of its four types: a function of both would lie in a crate below both, public, with a contract and an edit of its own, and be longer than the comparison that it would say once
        if guard_type > 7 {
            return Err(FieldFault::OutOfRange(0));
        }
        Ok(GuardBand {
            guard_type,
            left_width,
            right_width,
        })
    }
}
