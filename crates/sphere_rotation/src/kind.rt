// Type 154, sphere rotation, as a kind.
ghost use Rattle.std.proofs.Common.{arith};
ghost use Rattle.sphere_rotation.specs.Rules.{rotation_rules};
ghost use Rattle.sphere_rotation.specs.Rulings.{rotation_proper};

use crate::SphereRotation;
use kinds::canceling::Canceling;
use kinds::in_force::Stay;

impl Canceling for SphereRotation {
    ghost TYPE = { rotation_rules.number };

    const TYPE: u32 = 154;

    ghost GREATEST = { rotation_rules.greatest };

    const GREATEST: usize = 15;

    ghost stays = { rotation_rules.stay };

    fn stay(&self) -> Stay {
        Stay::from(self.persistence)
    }

    ghost proper = { rotation_proper };

    ghost framed = { omega arith };
}
