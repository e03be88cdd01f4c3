// A sphere rotation as the body of a record: what follows its cancel bit.
ghost use Rattle.sphere_rotation.specs.SphereRotation.{content as rotation_content, content_numbers as rotation_numbers};
ghost use Rattle.std.proofs.Common.{ap, rules, arith};
ghost use Rattle.std.specs.Prelude.{slice_index};
ghost use Rattle.records.proofs.Same.{bit-same};
ghost use Rattle.sphere_rotation.specs.RotationsLemmas.{turn-same, tilt-same, rotation-same};
ghost use Rattle.sphere_rotation.specs.Rulings.{content-takes};

use crate::{GREATEST_TILT, GREATEST_TURN, LEAST_TILT, LEAST_TURN, SphereRotation};
use fields::reader::Reader;
use fields::writer::Writer;
use layouts::fault::FieldFault;
use records::cancelable::Body;

impl Body for SphereRotation {
    ghost content = { rotation_content };

    ghost content_numbers = { rotation_numbers };

    ghost most = { 103 };

    ghost apart = { λ o p e. rotation-same o p (bit-same _ _ (ap (λ l. slice_index l 0) e)) (turn-same _ _ o.turns.0 p.turns.0 (ap (λ l. slice_index l 1) e)) (tilt-same _ _ o.turns.1.0 p.turns.1.0 (ap (λ l. slice_index l 2) e)) (turn-same _ _ o.turns.1.1 p.turns.1.1 (ap (λ l. slice_index l 3) e)) };

    ghost short = { content-takes };

    ghost limited = { Prim.search rules };

    fn decode(mut reader: Reader) -> Result<SphereRotation, FieldFault> {
        let persistence = reader.flag()?;
        reader.bits(6)?;
        let yaw = reader.signed_within(LEAST_TURN, GREATEST_TURN)?;
        let pitch = reader.signed_within(LEAST_TILT, GREATEST_TILT)?;
        let roll = reader.signed_within(LEAST_TURN, GREATEST_TURN)?;
        reader.close()?;
        Ok(SphereRotation {
            persistence,
            yaw,
            pitch,
            roll,
        })
    }

    #[tactic(auto, using(crate::specs::Rulings::rotation_proper))]
    fn encode(&self, writer: &mut Writer) {
        writer.flag(self.persistence);
        writer.bits(6, 0);
        writer.signed(self.yaw);
        writer.signed(self.pitch);
        writer.signed(self.roll);
        writer.close();
    }
}
