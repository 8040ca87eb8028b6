ghost use Rattle.shelf.specs.Laws.{Finds, FindsVacant, Puts};

use crate::record::Record;

// Of every record: find gives the lowest slot with the key, exactly when there is one.
pub fn find_stands<R: Record>()
    ensures { Finds R.Key.eq R.Record.key R.Record.empty }
{}

// Of every record: vacant gives the lowest empty slot, exactly when there is one.
pub fn vacant_stands<R: Record>()
    ensures { FindsVacant R.Record.key R.Record.empty }
{}

// Of every record: put writes the lowest empty slot and no other.
pub fn put_stands<R: Record>()
    ensures { Puts R.Record.key R.Record.empty }
{}
