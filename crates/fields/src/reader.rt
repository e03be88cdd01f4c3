// A payload that is read field by field.
ghost use Rattle.std.specs.Prelude.{◌*◌, ◌≤◌, length};

mod methods;
mod place;
mod ranges;

// The payload's bytes, and the bit at which the next field begins: no slice begins there.
#[derive(Drop)]
pub struct Reader<'a> {
    bytes: &'a [u8],
    at: usize,
    ghost short: { length bytes.now ≤ 65535 },
    ghost within: { at ≤ 8 * length bytes.now },
}
