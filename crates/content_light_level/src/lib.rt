// Type 144, content light level: how bright the pictures get, in candelas per square metre.
#![tactic(auto)]

ghost use Rattle.std.specs.Prelude.{◌^◌, ◌<◌};

use std::fmt;

pub mod examples;
pub mod kind;
pub mod record;

#[derive(Clone, Copy, PartialEq, Eq, Debug)]
pub struct ContentLightLevel {
    // of a sample, at most
    pub greatest: u16,
    // of a picture's average, at most
    pub greatest_average: u16,
    // the types say it; a specification, where all numbers are ℕ, does not see that
    ghost fits: { (greatest < 2 ^ 16) × (greatest_average < 2 ^ 16) },
}

// A light level, told as a limit: 0 tells none.
#[derive(Clone, Copy)]
struct Limit(u16);

impl fmt::Display for Limit {
    fn fmt<W: fmt::Write>(&self, f: &mut fmt::Formatter<W>) -> fmt::Result {
        let level = self.0;
        if level == 0 {
            write!(f, "no limit told")
        } else {
            write!(f, "at most {level} cd/m2")
        }
    }
}

impl fmt::Display for ContentLightLevel {
    fn fmt<W: fmt::Write>(&self, f: &mut fmt::Formatter<W>) -> fmt::Result {
        let sample = Limit(self.greatest);
        let average = Limit(self.greatest_average);
        write!(
            f,
            "content light level: brightest sample {sample}, brightest picture average {average}"
        )
    }
}
