// Payloads with what they come to, proved of the definitions.
ghost use Rattle.frame_packings.specs.Examples.{Examples};

#[tactic(auto, unfolding(layouts::specs::Bits::word, layouts::specs::Bits::number, layouts::specs::Bits::bits_of, layouts::specs::Bits::zeros, layouts::specs::Layout::next_u, layouts::specs::Layout::next_ue, layouts::specs::Layout::closing, layouts::specs::Layout::closes, frame_packing::specs::FramePacking::flags, frame_packing::specs::FramePacking::grid))]
pub fn examples_stand()
    ensures { Examples }
{}
