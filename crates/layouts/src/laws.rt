// The laws of layouts, proved once over every layout.
ghost use Rattle.layouts.specs.Layout.{Layout};
ghost use Rattle.layouts.specs.Payloads.{Lawful};

// Every layout reads as it was written, and is written as it was read exactly where the payload is plain.
#[tactic(auto, using(crate::proofs::Layouts::lawful))]
pub fn layouts_lawful()
    ensures { (l : Layout) → Lawful l }
{}
