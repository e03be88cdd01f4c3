// A source over bytes of its own.
ghost use Rattle.std.specs.Prelude.{◌≡◌, false};
ghost use Rattle.units.specs.Sources.{as_bytes};
ghost use Rattle.units.specs.Stores.{stored_bytes, stored_are_bytes};

use crate::source::{Source, SourceFault};
use std::vec::IntoIter;

// Clean bytes that the source holds, which never fault. One type with `Clean` was tried. Over any iterator the check asks
// that a call may be made, and for the list of the bytes to come, which an iterator does not have. Over a trait that has
// the list it proves, but the trait with its two impls is as long as what it replaces, and `new` says less of a slice: not
// that its bytes come as they are.
#[derive(Drop)]
pub struct Stored {
    rest: IntoIter<u8>,
}

impl Stored {
    pub fn new(bytes: Vec<u8>) -> Stored
        ensures { stored_bytes result ≡ as_bytes bytes.items }
    {
        Stored {
            rest: bytes.into_iter(),
        }
    }
}

impl Source for Stored {
    ghost coming = { stored_bytes };

    ghost faulty = { λ s. false };

    ghost bytes = { stored_are_bytes };

    fn next(&mut self) -> Result<Option<u8>, SourceFault> {
        Ok(self.rest.next())
    }
}
