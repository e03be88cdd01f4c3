// A visit to a stream: what is in force of every kind of a set, and what every call answers.
#![tactic(auto)]

mod save;
pub mod serve;
mod unit;
pub mod visit;
