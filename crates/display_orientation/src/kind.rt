// Type 47, display orientation, as a kind.
ghost use Rattle.std.proofs.Common.{arith};
ghost use Rattle.display_orientation.specs.Rules.{orientation_rules};
ghost use Rattle.display_orientation.specs.Rulings.{orientation_proper};

use crate::DisplayOrientation;
use kinds::canceling::Canceling;
use kinds::in_force::Stay;

impl Canceling for DisplayOrientation {
    ghost TYPE = { orientation_rules.number };

    const TYPE: u32 = 47;

    ghost GREATEST = { orientation_rules.greatest };

    const GREATEST: usize = 9;

    ghost stays = { orientation_rules.stay };

    fn stay(&self) -> Stay {
        Stay::from(self.period)
    }

    ghost proper = { orientation_proper };

    ghost framed = { omega arith };
}
