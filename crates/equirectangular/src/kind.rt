// Type 150, equirectangular projection, as a kind.
ghost use Rattle.std.proofs.Common.{arith};
ghost use Rattle.equirectangular.specs.Rules.{equirectangular_rules};
ghost use Rattle.equirectangular.specs.Rulings.{equirectangular_proper};

use crate::Equirectangular;
use kinds::canceling::Canceling;
use kinds::in_force::Stay;

impl Canceling for Equirectangular {
    ghost TYPE = { equirectangular_rules.number };

    const TYPE: u32 = 150;

    ghost GREATEST = { equirectangular_rules.greatest };

    const GREATEST: usize = 5;

    ghost stays = { equirectangular_rules.stay };

    fn stay(&self) -> Stay {
        Stay::from(self.persistence)
    }

    ghost proper = { equirectangular_proper };

    ghost framed = { omega arith };
}
