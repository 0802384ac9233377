//! Laws of how many versions a commit reads. No function here does anything: what it is for is its contract, which a
//! caller has as a fact.
ghost use Rattle.sysversion.specs.Reads.{OneForEachRow};

/// Where the versions of each table hold its history, at most one of them is open at a key and a first day: so a commit reads at most as
/// many as rows go.
pub fn one_for_each_row()
    ensures { OneForEachRow }
{}
