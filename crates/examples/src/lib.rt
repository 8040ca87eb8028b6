// The worked examples of the documents, shown of the definitions by computation.
#![tactic(auto)]

ghost use Rattle.examples.specs.Worked.{HandingOver, Leaders, Locks, Numbers, Quorums, Records};

// Every number here is one that docs/RULES.md or docs/FORMATS.md names.
pub fn worked_examples()
    ensures quorums { Quorums }
    ensures leaders { Leaders }
    ensures locks { Locks }
    ensures records { Records }
    ensures numbers { Numbers }
    ensures handing_over { HandingOver }
{}
