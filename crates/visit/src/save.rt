// A catch-up: every kind's part, as a unit.
ghost use Rattle.std.specs.Prelude.{◌≡◌, ◌≤◌, length};
ghost use Rattle.layouts.specs.Frames.{frames};
ghost use Rattle.units.specs.Units.{AllLimited};
ghost use Rattle.book.specs.Book.{saved};
ghost use Rattle.sets.specs.Parts.{writes, closed};
ghost use Rattle.visit.specs.Visits.{messages_of};

use book::answer::Saved;
use book::fault::Refusal;
use sets::list::Kinds;
use sets::parts::Size;
use units::writer::put_last;

// Writes every kind's part to the buffer's front, and the last byte behind them; answers the place behind it.
fn put_unit<R: Kinds>(kinds: &R, buffer: &mut [u8]) -> Option<usize>
    ensures answer { result ≡ (closed (writes R.Kinds.models (R.Kinds.meanings kinds.now) 0 buffer.old)).0 }
    ensures bytes { buffer.new ≡ (closed (writes R.Kinds.models (R.Kinds.meanings kinds.now) 0 buffer.old)).1 }
{
    let end = kinds.put_parts(buffer, 0)?;
    put_last(buffer, end)
}

// Saves every kind's part as a unit at the buffer's front: its length, and the number of its messages. With nothing
// in force it is no byte.
#[tactic(auto, using(crate::proofs::Saved::saving))]
pub fn save<R: Kinds>(kinds: &R, buffer: &mut [u8]) -> Result<Saved, Refusal>
    requires limited { AllLimited (messages_of R.Kinds kinds.now) }
    requires short { length (frames (messages_of R.Kinds kinds.now)) ≤ 65535 }
    ensures answer { result ≡ (saved (messages_of R.Kinds kinds.now) buffer.old).0 }
    ensures bytes { buffer.new ≡ (saved (messages_of R.Kinds kinds.now) buffer.old).1 }
{
    let size = kinds
        .with_parts(Size::default())
        .ok_or(Refusal::ShortBuffer)?;
    if size.messages == 0 {
        return Ok(Saved {
            len: 0,
            messages: 0,
        });
    }
    if size.bytes >= buffer.len() {
        return Err(Refusal::ShortBuffer);
    }
    let len = put_unit(kinds, buffer).ok_or(Refusal::ShortBuffer)?;
    Ok(Saved {
        len,
        messages: size.messages,
    })
}
