//! Laws of scripts. No function here does anything: what it is for is its contract.
ghost use Rattle.script.specs.Laws.{RecoversSoon};

/// A recovery brings few events, by the number of members and the length of the longest log.
pub fn recovers_soon()
    ensures { RecoversSoon }
{}
