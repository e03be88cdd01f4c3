// Sets of kinds: lists of kinds made of types, what is done to all kinds of one, and what a list shows to be a set.
#![tactic(auto)]

pub mod list;
pub mod parts;
pub mod set;
