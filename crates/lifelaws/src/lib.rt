//! Laws of the lives of which an audit says yes. No function here does anything: what it is for is its
//! contract, which a caller has as a fact.
#![tactic(auto)]

ghost use Rattle.std.specs.Prelude.{List};
ghost use Rattle.model.specs.Worlds.{Event};
ghost use Rattle.moments.specs.Behind.{Evidence};
ghost use Rattle.moments.specs.Rising.{Rise};
ghost use Rattle.auditor.specs.Audited.{Explains};
ghost use Rattle.lifelaws.specs.Lives.{LivesFollow, LivesRise};

/// Where marks rise and the events of a run explain lives, which is what an audit says of them with a yes, each life follows the
/// run: after each of its steps, what it replays to is what its member was in the run at a moment.
pub fn explained_lives_follow()
    ensures { (r : Evidence) (events : List Event) → Rise r.lives → Explains r events → LivesFollow r events }
{}

/// And stamps rise in what each life makes applied and sealed: what a step makes so is stamped above all that the life had made
/// so before. The same is so of the step that was cut short, had it been made whole. So no life of which an audit says yes went
/// down because a stamp did not rise.
pub fn explained_lives_rise()
    ensures { (r : Evidence) (events : List Event) → Rise r.lives → Explains r events → LivesRise r }
{
    safety::agreement();
    safety::quiet_closing();
    cells::laws::runs_rise();
}
