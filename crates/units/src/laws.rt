// The laws of escaping and of framing.
ghost use Rattle.units.specs.Laws.{Lawful};

// Removing emulation prevention undoes escaping, and reading a unit undoes framing it, for all bytes and messages.
#[tactic(auto, using(crate::proofs::Judgements::lawful))]
pub fn units_lawful()
    ensures { Lawful }
{}
