// Type 155, region-wise packing, as a kind.
ghost use Rattle.std.proofs.Common.{arith};
ghost use Rattle.regionwise_packing.specs.Rules.{packing_rules};
ghost use Rattle.regionwise_packing.specs.Rulings.{packing_proper};

use crate::RegionwisePacking;
use kinds::canceling::Canceling;
use kinds::in_force::Stay;

impl Canceling for RegionwisePacking {
    ghost TYPE = { packing_rules.number };

    const TYPE: u32 = 155;

    ghost GREATEST = { packing_rules.greatest };

    const GREATEST: usize = 1_011;

    ghost stays = { packing_rules.stay };

    fn stay(&self) -> Stay {
        Stay::from(self.persistence)
    }

    ghost proper = { packing_proper };

    ghost framed = { omega arith };
}
