// What is in force of frame packing (45): at most four arrangements, each under its id.
#![tactic(auto)]

pub mod examples;
pub mod packing;
pub mod packings;
#[cfg(test)]
mod tests;
