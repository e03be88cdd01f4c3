// Bytes of a source, taken into a lent scratch.
ghost use Rattle.std.specs.Prelude.{◌≡◌};
ghost use Rattle.units.specs.Fills.{room, filling, filled, unfilled};

use crate::fault::UnitFault;
use crate::source::Source;

// The bytes of a unit at most.
pub const LONGEST: usize = 65_536;

// How many bytes a scratch takes.
fn room_of(scratch: &[u8]) -> usize
    ensures { result ≡ room scratch.now }
{
    scratch.len().min(LONGEST)
}

// Takes the bytes of a source to its end into the scratch's front, and answers how many they are. Whether a fault follows
// stands apart in each contract: a source may be of any type, so that no field of one can hold it. Source and scratch are
// lent apart: one scratch serves many sources, and a caller looks into it afterwards.
#[tactic(auto, using(crate::proofs::Fills::fill_ends))]
pub fn fill<X: Source>(source: &mut X, scratch: &mut [u8]) -> Result<usize, UnitFault>
    ensures answer { result ≡ filling (X.Source.coming source.old) (X.Source.faulty source.old) scratch.old }
    ensures bytes { scratch.new ≡ filled (X.Source.coming source.old) scratch.old }
    ensures coming { X.Source.coming source.new ≡ unfilled (X.Source.coming source.old) scratch.old }
    ensures faulty { X.Source.faulty source.new ≡ X.Source.faulty source.old }
{
    let room = room_of(scratch);
    // a `for` over the scratch would ask the source at a second place, behind its end
    let mut taken = 0;
    while let Some(byte) = source.next().map_err(|_| UnitFault::Source { taken })? {
        if taken >= room {
            return Err(UnitFault::Room { taken });
        }
        scratch[taken] = byte;
        taken += 1;
    }
    Ok(taken)
}
