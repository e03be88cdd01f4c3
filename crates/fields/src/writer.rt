// A payload that is written field by field into a lent buffer.
mod methods;

// The buffer, and the bit at which the next field is written: no slice begins there.
#[derive(Drop)]
pub struct Writer<'a> {
    bytes: &'a mut [u8],
    at: usize,
}
