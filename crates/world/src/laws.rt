//! Laws of ways, and of what is explained.
ghost use Rattle.std.specs.Prelude.{◌≡◌, ◌≢◌, ◌<◌, ◌≤◌, ◌++◌, ℕ, ℤ, Bool, List, [], Some, None, Ok, Err, Contains, IsTrue, map};
ghost use Rattle.fault.specs.declared.refusal.Refusal.TheVariants.{Gap};
ghost use Rattle.model.specs.Lists.{nth};
ghost use Rattle.model.specs.Transactions.{Language};
ghost use Rattle.model.specs.Tables.{Row};
ghost use Rattle.model.specs.Answers.{Select, Shown, Answer as ModelAnswer};
ghost use Rattle.model.specs.declared.entry.Told.{Told};
ghost use Rattle.model.specs.Worlds.{World, Event as ModelEvent, Output as ModelOutput};
ghost use Rattle.model.specs.Worlds.Output.{Applied as ModelApplied};
ghost use Rattle.model.specs.Worlds.Event.{Ask as ModelAsk};
ghost use Rattle.believed.specs.Explained.{Explanation, Gave, HasTold, IsAnswered, IsExplainedSo, IsUnstopped};
ghost use Rattle.believed.specs.Answers.{asked_at};
ghost use Rattle.believed.specs.Progress.{AllMild};
ghost use Rattle.world.specs.declared.event.Event.{Event};
ghost use Rattle.world.specs.View.{event_of};

/// A way that `World::run` speaks of in `serves` is one that `run` itself can take: each of its events is
/// that of an `Event` of this crate.
pub fn ways_are_taken()
    ensures { (schema : Language) (n : ℕ) (live : ℕ → Bool) (clock : ℕ → ℤ) (w : World) (way : List ModelEvent) → AllMild schema n live clock w way → (events : List Event) × (map event_of events ≡ way) }
{}

/// What the clause `explained` of `World::run` refuses by itself, whatever the body does. A run that gives nothing of some
/// events: where what was given before is explained, it is not once more events are kept. One that says nothing where it is
/// asked. One that tells two outcomes of the request at one place of the list. One that answers a question differently for the
/// same instant. Members and moments do not matter.
///
/// And one that leaves out an outcome which is not the last one. A member that tells of a request has told, since it was last
/// stopped, of each one before it that anybody ever told of (`left_out`), and of all smaller numbers of its client, unless it
/// tells of a gap (`number_left_out`). One that answers has told of each request that anybody told of as accepted at an instant
/// no later than the one that the answer names (`unsaid`).
///
/// And one that tells of a request again, or of an earlier one afterwards (`again`), unless it was stopped in between.
///
/// And one that answers with an older answer: to a question without system time, AS OF an instant below that of a request which
/// the member told of as accepted (`stale`), or below that of an answer which it gave (`older`), unless it was stopped in between.
///
/// And one that answers with another question's rows: with one that does not pass WHERE (`fails_where`), or without one that
/// does, and that somebody's answer over this table and these instants has (`lacks_row`).
pub fn what_is_refused()
    ensures nothing { (language : Language) (n : ℕ) (events more : List ModelEvent) (given : List (List ModelOutput)) → Explanation language n events given → more ≢ [] → IsExplainedSo language n (events ++ more) given → ⊥ }
    ensures silence { (language : Language) (n : ℕ) (events : List ModelEvent) (given : List (List ModelOutput)) (k m : ℕ) (q : Select) → IsExplainedSo language n events given → nth events k ≡ Some (ModelAsk m q) → 1 ≤ m → m ≤ n → nth given k ≡ Some [] → ⊥ }
    ensures outcomes { (language : Language) (n : ℕ) (events : List ModelEvent) (given : List (List ModelOutput)) (j k l m : ℕ) (a b : Told) → Explanation language n events given → Gave given j (ModelApplied l a) → Gave given k (ModelApplied m b) → a.index ≡ b.index → a ≡ b }
    ensures answers { (language : Language) (n : ℕ) (events : List ModelEvent) (given : List (List ModelOutput)) (j k l m : ℕ) (q : Select) (a b : ModelAnswer) → Explanation language n events given → IsAnswered events given j l q a → IsAnswered events given k m q b → a.last ≡ b.last → a ≡ b }
    ensures left_out { (language : Language) (n : ℕ) (events : List ModelEvent) (given : List (List ModelOutput)) (j k l m : ℕ) (a b : Told) → IsExplainedSo language n events given → Gave given j (ModelApplied l a) → Gave given k (ModelApplied m b) → a.index < b.index → (HasTold events given k m a.index → ⊥) → ⊥ }
    ensures number_left_out { (language : Language) (n : ℕ) (events : List ModelEvent) (given : List (List ModelOutput)) (k m number : ℕ) (told : Told) → IsExplainedSo language n events given → Gave given k (ModelApplied m told) → told.outcome ≢ Err Gap → 1 ≤ number → number < told.number → ((j : ℕ) (other : Told) → j ≤ k → Gave given j (ModelApplied m other) → other.client ≡ told.client → other.number ≡ number → ⊥) → ⊥ }
    ensures unsaid { (language : Language) (n : ℕ) (events : List ModelEvent) (given : List (List ModelOutput)) (j k l m t : ℕ) (told : Told) (q : Select) (a : ModelAnswer) → IsExplainedSo language n events given → Gave given j (ModelApplied l told) → told.outcome ≡ Ok t → IsAnswered events given k m q a → t ≤ a.last → ((i : ℕ) (other : Told) → i ≤ k → Gave given i (ModelApplied m other) → other.client ≡ told.client → other.number ≡ told.number → ⊥) → ⊥ }
    ensures stale { (language : Language) (n : ℕ) (events : List ModelEvent) (given : List (List ModelOutput)) (j k m t : ℕ) (told : Told) (q : Select) (a : ModelAnswer) → IsExplainedSo language n events given → j < k → IsUnstopped events m j k → Gave given j (ModelApplied m told) → told.outcome ≡ Ok t → IsAnswered events given k m q a → q.time ≡ None → a.last < t → ⊥ }
    ensures older { (language : Language) (n : ℕ) (events : List ModelEvent) (given : List (List ModelOutput)) (j k m : ℕ) (q r : Select) (a b : ModelAnswer) → IsExplainedSo language n events given → j < k → IsUnstopped events m j k → IsAnswered events given j m q a → IsAnswered events given k m r b → r.time ≡ None → b.last < a.last → ⊥ }
    ensures fails_where { (language : Language) (n : ℕ) (events : List ModelEvent) (given : List (List ModelOutput)) (k m : ℕ) (q : Select) (a : ModelAnswer) (row : Row) → IsExplainedSo language n events given → IsAnswered events given k m q a → Contains (map (λ (s : Shown). s.row) a.rows) row → (IsTrue (q.passes row) → ⊥) → ⊥ }
    ensures lacks_row { (language : Language) (n : ℕ) (events : List ModelEvent) (given : List (List ModelOutput)) (j k l m : ℕ) (q r : Select) (a b : ModelAnswer) (row : Row) → IsExplainedSo language n events given → IsAnswered events given j l q a → IsAnswered events given k m r b → q.table ≡ r.table → asked_at a.last q ≡ asked_at b.last r → Contains (map (λ (s : Shown). s.row) a.rows) row → IsTrue (r.passes row) → (Contains (map (λ (s : Shown). s.row) b.rows) row → ⊥) → ⊥ }
    ensures again { (language : Language) (n : ℕ) (events : List ModelEvent) (given : List (List ModelOutput)) (j k m : ℕ) (a b : Told) → IsExplainedSo language n events given → j < k → IsUnstopped events m j k → Gave given j (ModelApplied m a) → Gave given k (ModelApplied m b) → b.index ≤ a.index → ⊥ }
{}
