// Where a reader is.
ghost use Rattle.std.specs.Prelude.{◌≡◌};
ghost use Rattle.fields.specs.Reading.{left};

use crate::reader::Reader;

impl<'a> Reader<'a> {
    // The bit at which the next field begins.
    pub fn place(&self) -> usize
        ensures { result ≡ (left self.now).place }
    {
        self.at
    }
}
