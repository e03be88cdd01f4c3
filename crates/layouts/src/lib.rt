// Layouts of payloads: their laws, proved once over all of them, and why a payload is refused.
#![tactic(auto)]

pub mod fault;
pub mod laws;
