// The messages of a unit, read from its bytes.
ghost use Rattle.std.specs.Prelude.{◌≡◌, ◌+◌, ◌-◌, length};
ghost use Rattle.std.specs.Result.{result_map_both};
ghost use Rattle.units.specs.Units.{unheard, judged};
ghost use Rattle.units.specs.Readings.{Counts, Finds, coming, HandsOut};
ghost use Rattle.std.specs.Iterator.{at_most};

use crate::fault::UnitFault;

// The byte behind the last message.
pub const LAST: u8 = 0x80;

// A type or a size at most. It is the limit of a type too, and `fields`, whose `LONGEST` is the limit of a payload, is not
// below this crate.
pub const GREATEST: u32 = 65_535;

// A message: its type, the place of its first byte, and its payload.
#[derive(Clone, Copy)]
pub struct Message<'a> {
    // any number may come, and most are of no kind of a set, so it is no enum
    pub kind: u32,
    pub place: usize,
    pub payload: &'a [u8],
}

// The messages of a unit, from a place on. It can be copied, so that a frame that was judged once is gone over twice.
#[derive(Clone, Copy)]
pub struct Messages<'a> {
    // the bytes before the last
    body: &'a [u8],
    // in the unit, as the place of a message is told
    at: usize,
}

// A type or a size, and the place behind it.
#[derive(Clone, Copy)]
struct Count {
    value: u32,
    next: usize,
}

// The type or the size at a place.
#[tactic(auto, using(crate::proofs::Readings::counted_here))]
fn count_at(bytes: &[u8], at: usize) -> Option<Count>
    ensures { Counts result bytes.now at }
{
    let mut value: u32 = 0;
    let mut next = at;
    // the place behind goes along: by `enumerate` each count costs more
    for byte in bytes.get(at..)? {
        value += u32::from(*byte);
        next += 1;
        if value > GREATEST {
            return None;
        }
        if *byte < 255 {
            return Some(Count { value, next });
        }
    }
    None
}

// The message at a place, and the place behind it.
#[tactic(auto, using(crate::proofs::Readings::message_here))]
fn message_at(bytes: &[u8], at: usize) -> Option<(Message<'_>, usize)>
    ensures { Finds result bytes.now at }
{
    let kind = count_at(bytes, at)?;
    let size = count_at(bytes, kind.next)?;
    let end = size.next + size.value as usize;
    let message = Message {
        kind: kind.value,
        place: at,
        payload: bytes.get(size.next..end)?,
    };
    Some((message, end))
}

// Where the messages end: the place of the first that does not fit, or the number of bytes.
#[tactic(auto, using(crate::proofs::Parts::left_over))]
fn messages_end(body: &[u8]) -> usize
    ensures { result + length (unheard body.now) ≡ length body.now }
{
    let mut at = 0;
    // `Messages` hands out no ends, and by `successors` it would be a chain with a closure and a case for none
    while let Some((_, next)) = message_at(body, at) {
        at = next;
    }
    at
}

impl<'a> Messages<'a> {
    // Judges the frame of a whole unit, and hands out its messages if it is sound.
    #[tactic(auto, using(crate::proofs::Parts::placed_nil))]
    pub fn new(bytes: &'a [u8]) -> Result<Messages<'a>, UnitFault>
        ensures { result_map_both coming (λ f. f) result ≡ judged bytes.now }
    {
        let Some((last, body)) = bytes.split_last() else {
            return Ok(Messages { body: bytes, at: 0 });
        };
        if *last != LAST {
            return Err(UnitFault::Frame { at: body.len() });
        }
        let end = messages_end(body);
        if body.is_empty() || end < body.len() {
            return Err(UnitFault::Frame { at: end });
        }
        Ok(Messages { body, at: 0 })
    }
}

impl<'a> Iterator for Messages<'a> {
    type Item = Message<'a>;

    ghost next_gives = { HandsOut };

    ghost remaining = { λ s. at_most (length s.body.now - s.at) };

    fn next(&mut self) -> Option<Message<'a>> {
        let (message, end) = message_at(self.body, self.at)?;
        self.at = end;
        Some(message)
    }
}
