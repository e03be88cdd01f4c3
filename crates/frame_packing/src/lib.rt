// Type 45, frame packing arrangement: its message as a record.
#![tactic(auto)]

pub mod message;
