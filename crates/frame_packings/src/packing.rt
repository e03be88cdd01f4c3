// A frame packing in force, by its id.
use frame_packing::message::{Arrangement, PackingId};
use std::fmt;

mod methods;

#[derive(Clone, Copy, PartialEq, Eq, Debug)]
pub struct Packing {
    pub id: PackingId,
    pub arrangement: Arrangement,
}

impl fmt::Display for Packing {
    fn fmt<W: fmt::Write>(&self, f: &mut fmt::Formatter<W>) -> fmt::Result {
        let id = self.id;
        let arrangement = self.arrangement;
        write!(f, "{arrangement}, id {id}")
    }
}
