// Type 144, content light level, as a kind: it always stays, and another one is refused.
ghost use Rattle.std.specs.Prelude.{refl};
ghost use Rattle.content_light_level.specs.ContentLightLevel.{numbers as level_numbers};
ghost use Rattle.content_light_level.specs.Rules.{level_rules};
ghost use Rattle.content_light_level.specs.Rulings.{level_ruled, level_proper};

use crate::ContentLightLevel;
use kinds::content::Content;
use kinds::in_force::Stay;
use layouts::fault::ShortBuffer;
use records::fault::PayloadFault;
use records::record::Record;

impl Content for ContentLightLevel {
    ghost TYPE = { 144 };

    const TYPE: u32 = 144;

    ghost GREATEST = { 6 };

    const GREATEST: usize = 6;

    ghost rules = { level_rules };

    ghost numbers = { level_numbers };

    fn read(payload: &[u8]) -> Result<Option<ContentLightLevel>, PayloadFault> {
        let level = <ContentLightLevel as Record>::read(payload)?;
        Ok(Some(level))
    }

    fn payload_len(&self) -> usize {
        <ContentLightLevel as Record>::payload_len(self)
    }

    fn write(&self, buffer: &mut [u8]) -> Result<usize, ShortBuffer> {
        <ContentLightLevel as Record>::write(self, buffer)
    }

    fn stay(&self) -> Stay {
        Stay::Stays
    }

    fn agrees(&self, held: &ContentLightLevel) -> bool {
        self == held
    }

    ghost ruled = { level_ruled };

    ghost proper = { level_proper };

    ghost typed = { refl };

    ghost limited = { refl };
}
