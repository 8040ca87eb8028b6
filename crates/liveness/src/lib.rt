// Why timely stretches hand over: see specs/ for the statement, proofs/ for the argument.
#![tactic(auto)]

ghost use Rattle.liveness.specs.Liveness.{StretchesHandOver};

// While the radio and two sound leaders in a row are in time, every sound console hands over the first leader's block.
pub fn timely_stretches_hand_over()
    ensures { StretchesHandOver }
{}
