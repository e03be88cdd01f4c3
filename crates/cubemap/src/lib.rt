// Type 151, cubemap projection: the picture is the six faces of a cube.
#![tactic(auto)]

use std::fmt;

pub mod examples;
pub mod kind;
pub mod record;

#[derive(Clone, Copy, PartialEq, Eq, Debug)]
pub struct Cubemap {
    // whether it stays in force beyond its picture
    pub persistence: bool,
}

impl fmt::Display for Cubemap {
    fn fmt<W: fmt::Write>(&self, f: &mut fmt::Formatter<W>) -> fmt::Result {
        let persistence = u8::from(self.persistence);
        write!(
            f,
            "cubemap projection: the six faces of a cube, persistence {persistence}"
        )
    }
}
