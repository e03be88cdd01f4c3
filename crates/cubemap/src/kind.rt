// Type 151, cubemap projection, as a kind.
ghost use Rattle.std.proofs.Common.{arith};
ghost use Rattle.cubemap.specs.Rules.{cubemap_rules};
ghost use Rattle.cubemap.specs.Rulings.{cubemap_proper};

use crate::Cubemap;
use kinds::canceling::Canceling;
use kinds::in_force::Stay;

impl Canceling for Cubemap {
    ghost TYPE = { cubemap_rules.number };

    const TYPE: u32 = 151;

    ghost GREATEST = { cubemap_rules.greatest };

    const GREATEST: usize = 3;

    ghost stays = { cubemap_rules.stay };

    fn stay(&self) -> Stay {
        Stay::from(self.persistence)
    }

    ghost proper = { cubemap_proper };

    ghost framed = { omega arith };
}
