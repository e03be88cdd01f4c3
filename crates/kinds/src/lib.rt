// What the kinds of all messages share: what is in force of one, what a message does to it, and the payloads that bring it back.
#![tactic(auto)]

pub mod canceling;
pub mod content;
pub mod fault;
pub mod in_force;
pub mod kind;
pub mod single;
