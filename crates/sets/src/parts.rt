// The part of a kind, framed: how much it takes, and its bytes in a buffer.
ghost use Rattle.std.specs.Prelude.{◌≡◌, ◌+◌, ◌<◌, false, [], length, if◌then◌else◌, Some as Wrote, None as Nothing, slice_index_or};
ghost use Rattle.layouts.specs.Frames.{framed, under};
ghost use Rattle.units.specs.Writings.{put, fits};
ghost use Rattle.sets.specs.Parts.{part, more, sized, written};

use kinds::kind::Kind;
use units::fill::LONGEST;
use units::writer::{framed_len, put_head};

// The bytes of a unit without its last one at most, and its messages at most.
const MOST: usize = LONGEST - 1;

// How many bytes framed messages take, and how many they are: a sum that grows, and no `Saved` before the unit's last byte
// is counted.
#[derive(Clone, Copy, Default)]
pub struct Size {
    pub bytes: usize,
    pub messages: usize,
}

impl Size {
    // The size with one message more.
    fn with(self, kind: u32, len: usize) -> Option<Size>
        ensures { result ≡ more self kind len }
    {
        let framed = framed_len(kind, len)?;
        if self.bytes > MOST || framed > MOST - self.bytes || self.messages >= MOST {
            return None;
        }
        Some(Size {
            bytes: self.bytes + framed,
            messages: self.messages + 1,
        })
    }
}

// The size with a kind's part more.
pub fn with_part<K: Kind>(kind: &K, size: Size) -> Option<Size>
    ensures { result ≡ sized (under K.Kind.model.number (part K.Kind kind.now)) size }
{
    let mut size = size;
    // a look names a payload by its number, so a kind hands them out by it; an iterator beside would be a second way to
    // the same
    for n in 0..kind.count() {
        let len = kind.payload_len(n)?;
        size = size.with(K::TYPE, len)?;
    }
    Some(size)
}

// Writes payload n of a kind, framed, from a place on, and answers the place behind it.
fn put_payload<K: Kind>(kind: &K, n: usize, buffer: &mut [u8], at: usize) -> Option<usize>
    requires { n < length (part K.Kind kind.now) }
    ensures answer { result ≡ (if fits K.Kind.model.number (length (slice_index_or (part K.Kind kind.now) n [])) at (length buffer.old) then Wrote (at + length (framed (K.Kind.model.number, slice_index_or (part K.Kind kind.now) n []))) else Nothing) }
    ensures bytes { buffer.new ≡ (if fits K.Kind.model.number (length (slice_index_or (part K.Kind kind.now) n [])) at (length buffer.old) then put at (framed (K.Kind.model.number, slice_index_or (part K.Kind kind.now) n [])) buffer.old else buffer.old) }
{
    let len = kind.payload_len(n)?;
    let start = put_head(K::TYPE, len, buffer, at)?;
    let end = start + len;
    kind.payload(n, &mut buffer[start..end]).ok()?;
    Some(end)
}

// Writes a kind's part from a place on, and answers the place behind it.
pub fn put_part<K: Kind>(kind: &K, buffer: &mut [u8], at: usize) -> Option<usize>
    ensures answer { result ≡ (written (under K.Kind.model.number (part K.Kind kind.now)) at buffer.old).0 }
    ensures bytes { buffer.new ≡ (written (under K.Kind.model.number (part K.Kind kind.now)) at buffer.old).1 }
{
    let mut place = at;
    // by number, as above
    for n in 0..kind.count() {
        place = put_payload(kind, n, buffer, place)?;
    }
    Some(place)
}
