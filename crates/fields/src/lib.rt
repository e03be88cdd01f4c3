// Fields of bits: how they are read from a payload and written to one.
#![tactic(auto)]

mod closing;
pub mod reader;
pub mod writer;

// The bytes of a payload at most.
pub const LONGEST: usize = 65_535;
