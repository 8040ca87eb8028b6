ghost use Rattle.std.specs.Prelude.{◌≡◌, ◌-◌};
ghost use Rattle.votes.specs.Quorum.{is_quorum, spare};

// How many of n consoles make a quorum: all but those that the pit can spare.
pub fn quorum_of(n: u8) -> u8
    ensures { result ≡ n - spare n }
{
    n - n.saturating_sub(1) / 3
}

// Whether the set is a quorum of n consoles.
pub fn is_quorum(n: u8, set: u16) -> bool
    ensures { result ≡ is_quorum n «set» }
{
    set.count_ones() >= u32::from(quorum_of(n))
}
