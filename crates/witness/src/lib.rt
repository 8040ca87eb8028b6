// A concrete shift that meets all that the promise over shifts takes for granted: the promise is not an empty one.
#![tactic(auto)]

ghost use Rattle.witness.specs.Facts.{SoundShift, TimelyShift};

/// A sheet is sound on which a faulty leader shows two consoles different blocks, and one sound console is ahead of another.
pub fn a_sound_sheet_exists()
    ensures { SoundShift }
{}

/// A sound sheet has a timely stretch, in which every sound console hands over the block of its first view.
pub fn a_timely_stretch_exists()
    ensures { TimelyShift }
{}
