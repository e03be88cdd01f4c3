// The call book of a visit: what every call answers, and what is in force after it; and what holds of every list of
// calls.
#![tactic(auto)]

pub mod answer;
pub mod fault;
