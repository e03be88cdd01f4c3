// Payloads with what they come to, proved of the definitions.
ghost use Rattle.sphere_rotation.specs.Examples.{Examples};

#[tactic(auto, unfolding(layouts::specs::Bits::word, layouts::specs::Bits::number, layouts::specs::Bits::bits_of, layouts::specs::Layout::next_u, layouts::specs::Layout::closing, layouts::specs::Layout::closes, layouts::specs::Layout::between))]
pub fn examples_stand()
    ensures { Examples }
{}
