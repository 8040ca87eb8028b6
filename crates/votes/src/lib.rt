// Votes, locks and quorums: why the chains of sound consoles never part.
// Nothing here knows of ticks, leaders, seals, clocks or boards: whoever meets the premises of `Lawful` has the conclusions.
#![tactic(auto)]

ghost use Rattle.votes.specs.Quorum.{Counted, Counting, QuorumsShare, SoundSuffice};
ghost use Rattle.votes.specs.Small.{Met, blocks as sample};
ghost use Rattle.votes.specs.Votes.{Agreement, Ancestry, Blocks, Lasting};

// What is voted on: any type of bodies, with keys and parents.
pub trait Kind {
    ghost blocks: { Blocks };
}

// Two quorums share a sound console, and the sound consoles are a quorum: by weight, and by count as weights of 1.
pub fn quorums_share_a_sound_console()
    ensures share { QuorumsShare }
    ensures suffice { SoundSuffice }
    ensures counting { Counting }
    ensures counted { Counted }
{}

// Of two settled chains of one lawful history one begins with the other, and what is settled stays so.
pub fn chains_never_part<K: Kind>()
    ensures agreement { Agreement K.Kind.blocks }
    ensures ancestry { Ancestry K.Kind.blocks }
    ensures lasting { Lasting K.Kind.blocks }
{}

// Three blocks, voted on by four consoles of which one is not sound.
pub struct Sample;

impl Kind for Sample {
    ghost blocks = { sample };
}

// A history that meets every premise and has a final block, and what then holds of its blocks.
pub fn an_instance()
    ensures met { Met }
    ensures agreement { Agreement sample }
{
    chains_never_part::<Sample>()
}
