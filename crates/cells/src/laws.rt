//! What a cell never meets in a run of a group. No function here does anything: what it is for is its contract, which a caller has
//! as a fact.
ghost use Rattle.std.specs.Prelude.{ℕ};
ghost use Rattle.model.specs.Transactions.{Language};
ghost use Rattle.model.specs.Worlds.{new_world, led_world};
ghost use Rattle.cells.specs.Runs.{RunsRise, MembersAgree};

/// In each run of a group, from either outset, what a step of a member makes applied and sealed has stamps that rise over all that
/// the member had applied and sealed before. So a cell whose member is one of a run, before a step and after it, does not go down
/// in that step because a stamp does not rise: by its kept facts the items of its life are what the member had applied and sealed.
pub fn runs_rise()
    ensures new { (schema : Language) (n : ℕ) → RunsRise schema n (new_world n) }
    ensures led { (schema : Language) (n : ℕ) → RunsRise schema n (led_world n) }
{
    safety::agreement();
}

/// Views of different members of one run agree: what was answered in the first of the items that a member had applied and sealed at a
/// moment, and in the first of those of another or of the same, is the same answer where the same was asked. A question without
/// system time asks AS OF the last instant that its answer names.
pub fn members_agree()
    ensures new { (schema : Language) (n : ℕ) → MembersAgree schema n (new_world n) }
    ensures led { (schema : Language) (n : ℕ) → MembersAgree schema n (led_world n) }
{
    safety::agreement();
    view::laws::lives_agree();
}
