//! Laws of current rows, and of what is touched. No function here does anything: what it is for is
//! its contract, which a caller has as a fact.
ghost use Rattle.current.specs.Laws.{KeysWithin, OfSomeState, NothingBeyond};

/// The rows of all tables are those of some state.
pub fn of_some_state()
    ensures { OfSomeState }
{
    rowlaws::insert_on_rows();
    rowlaws::overlaps_on_rows();
    rowlaws::same_rows();
    rowlaws::logs_on_rows();
}

/// Nothing is touched of a table past the last that is told of.
pub fn nothing_beyond()
    ensures { NothingBeyond }
{}

/// No row's key has more columns than keys of its table have had.
pub fn keys_within()
    ensures { KeysWithin }
{}
