// The laws of the format and its reading, each proved as what a function promises.
#![tactic(auto)]

ghost use Rattle.wire_laws.specs.Examples.{Proposal165, Signers000B};
ghost use Rattle.wire_laws.specs.Laws.{BodyByBytes, ReadIsWritten, StatementByBytes, WrittenReads};

// Messages and the bytes that read as one match: each is got back from the other.
pub fn bytes_and_messages_match()
    ensures reads { WrittenReads }
    ensures written { ReadIsWritten }
{}

// Equal bytes are those of one body, and of one statement.
pub fn bytes_determine_records()
    ensures body { BodyByBytes }
    ensures statement { StatementByBytes }
{}

pub fn examples_stand()
    ensures signers { Signers000B }
    ensures proposal { Proposal165 }
{}
