// What a clip hands over as messages, and messages as bytes: sources of bytes, and the frame of a unit.
#![tactic(auto)]

pub mod fault;
pub mod fill;
pub mod frame;
pub mod laws;
pub mod source;
pub mod stored;
#[cfg(test)]
mod tests;
pub mod unescaped;
pub mod writer;
