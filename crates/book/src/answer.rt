// What the calls of a visit answer.
use crate::fault::{MessageFault, Refusal};
use kinds::fault::Offered;

// What became of a unit's messages: how many were granted, refused and passed, and the first refusal.
#[derive(Clone, Copy, Default)]
pub struct Tally {
    pub granted: usize,
    pub refused: usize,
    pub passed: usize,
    pub refusal: Option<MessageFault>,
}

// How many bytes a catch-up has, and of how many messages it is. No `Size` of `sets`, which is a sum that grows, and counts
// the bytes without the unit's last one.
#[derive(Clone, Copy, PartialEq, Eq, Debug, Default)]
pub struct Saved {
    pub len: usize,
    pub messages: usize,
}

// The answer to any call; a picture and a clear are always done.
#[derive(Clone, Copy)]
pub enum Answer {
    Done,
    Message(Result<Offered, Refusal>),
    Unit(Result<Tally, Refusal>),
    Look(Result<usize, Refusal>),
    CatchUp(Result<Saved, Refusal>),
}
