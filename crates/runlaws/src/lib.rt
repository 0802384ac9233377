//! How a run goes on by what one process does to the members that it has. No function here does anything: what it is for is its
//! contract, which a caller has as a fact.
#![tactic(auto)]

ghost use Rattle.std.specs.Prelude.{ℕ};
ghost use Rattle.model.specs.Transactions.{Language};
ghost use Rattle.model.specs.Worlds.{World};
ghost use Rattle.runlaws.specs.Going.{Goes};

/// A run that went on goes on further.
pub fn goes_on()
    ensures { (language : Language) (n : ℕ) (w v u : World) → Goes language n w v → Goes language n v u → Goes language n w u }
{}
