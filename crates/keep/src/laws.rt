//! Laws of what is stored.
ghost use Rattle.std.specs.Prelude.{ℕ};
ghost use Rattle.model.specs.Transactions.{Language};
ghost use Rattle.keep.specs.Durable.{blank};
ghost use Rattle.keep.specs.Log.{IsLog};

/// What is there before anything was stored forms a log of every member.
pub fn blank_log()
    ensures { (members : ℕ) (language : Language) → IsLog members language blank }
{}
