// What the records of all messages share: reading one from a payload, writing it to one, and why a payload is refused.
#![tactic(auto)]

pub mod cancelable;
pub mod fault;
pub mod period;
pub mod record;
