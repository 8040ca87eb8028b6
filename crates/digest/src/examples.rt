// The definitions on published examples.
ghost use Rattle.digest.specs.Examples.{EmptyMessage, OneBlock, TwoBlocks, ShortKey, FilledKey, LongKey};

/// The definitions that the other contracts cite give the published digests and tags.
pub fn examples_stand()
    ensures empty_message { EmptyMessage }
    ensures one_block { OneBlock }
    ensures two_blocks { TwoBlocks }
    ensures short_key { ShortKey }
    ensures filled_key { FilledKey }
    ensures long_key { LongKey }
{}
