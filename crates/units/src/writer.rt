// Messages as bytes, written into a lent buffer.
ghost use Rattle.std.specs.Prelude.{◌≡◌, ◌+◌, ◌≤◌, true, length, if◌then◌else◌, Some as Wrote, None as Nothing, nat_lt, slice_set};
ghost use Rattle.layouts.specs.Frames.{count, framed};
ghost use Rattle.units.specs.Writings.{put, head, framed_length, limited, fits};

use crate::frame::{GREATEST, LAST};

// The bytes of a type or a size.
#[tactic(auto, using(crate::proofs::Writings::count_writes))]
fn count_len(number: usize) -> usize
    ensures value { result ≡ length (count number) }
    ensures small { result ≤ number + 1 }
{
    number / 255 + 1
}

// The bytes of a message of a type with a payload of a size; none where either is past the limits.
pub fn framed_len(kind: u32, size: usize) -> Option<usize>
    ensures { result ≡ (if limited kind size then Wrote (framed_length kind size) else Nothing) }
{
    if kind > GREATEST || size > GREATEST as usize {
        return None;
    }
    Some(count_len(kind as usize) + count_len(size) + size)
}

// Whether a message is within the limits, and a buffer of a length has room for it from a place on.
fn has_room(kind: u32, size: usize, len: usize, at: usize) -> bool
    ensures value { result ≡ fits kind size at len }
    ensures room { result ≡ true → at + framed_length kind size ≤ len }
{
    framed_len(kind, size).is_some_and(|framed| at <= len && framed <= len - at)
}

// In each of the six functions below the buffer and the place stay two parameters: a message that finds no room is
// answered by `None`, and there is no place then. A struct of both would still hold one, which each contract would have to
// tell.

// Writes a type or a size from a place on, and answers the place behind it.
#[tactic(auto, using(crate::proofs::Writings::count_writes))]
fn put_count(number: usize, buffer: &mut [u8], at: usize) -> usize
    requires { at + length (count number) ≤ length buffer.old }
    ensures place { result ≡ at + length (count number) }
    ensures bytes { buffer.new ≡ put at (count number) buffer.old }
{
    let last = at + number / 255;
    buffer[at..last].fill(255);
    buffer[last] = (number % 255) as u8;
    last + 1
}

// Writes a type and a size, one after the other. The clause `len` follows from `place`, and is there for the callers' search.
#[tactic(auto, using(crate::proofs::Writings::count_writes))]
fn put_counts(kind: usize, size: usize, buffer: &mut [u8], at: usize) -> usize
    requires { at + (length (count kind) + length (count size)) ≤ length buffer.old }
    ensures place { result ≡ at + length (head kind size) }
    ensures len { result ≡ at + (length (count kind) + length (count size)) }
    ensures bytes { buffer.new ≡ put at (head kind size) buffer.old }
{
    let typed = put_count(kind, buffer, at);
    put_count(size, buffer, typed)
}

// Writes a type, a size and a payload, one after the other. Type and payload stay two parameters: the type picks the kind,
// which is handed the payload alone, so that a struct of both would be made and taken apart for one call.
#[tactic(auto, using(crate::proofs::Writings::part_writes))]
fn put_parts(kind: usize, payload: &[u8], buffer: &mut [u8], at: usize) -> usize
    requires { at + framed_length kind (length payload.now) ≤ length buffer.old }
    ensures place { result ≡ at + length (framed (kind, payload.now)) }
    ensures bytes { buffer.new ≡ put at (framed (kind, payload.now)) buffer.old }
{
    let start = put_counts(kind, payload.len(), buffer, at);
    let end = start + payload.len();
    buffer[start..end].copy_from_slice(payload);
    end
}

// Writes the type and the size of a message from a place on, and answers the place behind them, where its payload
// goes. A message past the limits, or that the buffer has no room for, is not begun.
pub fn put_head(kind: u32, size: usize, buffer: &mut [u8], at: usize) -> Option<usize>
    ensures answer { result ≡ (if fits kind size at (length buffer.old) then Wrote (at + length (head kind size)) else Nothing) }
    ensures bytes { buffer.new ≡ (if fits kind size at (length buffer.old) then put at (head kind size) buffer.old else buffer.old) }
{
    if !has_room(kind, size, buffer.len(), at) {
        return None;
    }
    Some(put_counts(kind as usize, size, buffer, at))
}

// Writes a message from a place on, and answers the place behind it; nothing where it does not fit, as in `put_head`.
// Type and payload are two parameters, as in `put_parts`.
pub fn put_message(kind: u32, payload: &[u8], buffer: &mut [u8], at: usize) -> Option<usize>
    ensures answer { result ≡ (if fits kind (length payload.now) at (length buffer.old) then Wrote (at + length (framed (kind, payload.now))) else Nothing) }
    ensures bytes { buffer.new ≡ (if fits kind (length payload.now) at (length buffer.old) then put at (framed (kind, payload.now)) buffer.old else buffer.old) }
{
    if !has_room(kind, payload.len(), buffer.len(), at) {
        return None;
    }
    Some(put_parts(kind as usize, payload, buffer, at))
}

// Writes the last byte of a unit, behind its messages.
pub fn put_last(buffer: &mut [u8], at: usize) -> Option<usize>
    ensures answer { result ≡ (if nat_lt at (length buffer.old) then Wrote (at + 1) else Nothing) }
    ensures bytes { buffer.new ≡ (if nat_lt at (length buffer.old) then slice_set buffer.old at 128 else buffer.old) }
{
    // by `get_mut` and `?` the check asks what the buffer holds then, on both ways out
    if at >= buffer.len() {
        return None;
    }
    buffer[at] = LAST;
    Some(at + 1)
}
