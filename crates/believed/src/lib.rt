//! The definitions that a reader of the theorems believes, in short words and in the order in which one reads them. Crates below
//! say the same in words of their own, nearer to the code. No function here does anything: its contract says that both come to
//! the same, or what is proved of runs in these words.
#![tactic(auto)]

ghost use Rattle.std.specs.Prelude.{◌≡◌, ℕ, List};
ghost use Rattle.std.specs.Result.{result_map_both};
ghost use Rattle.model.specs.Transactions.{Language};
ghost use Rattle.model.specs.Worlds.{World, Event, Output, new_world};
ghost use Rattle.model.specs.Worlds as model;
ghost use Rattle.believed.specs.Worlds.{run, GivesAll};
ghost use Rattle.believed.specs.Agreement.{Agree, decided};
ghost use Rattle.believed.specs.Explained.{Explanation, IsDecidedInOrder, IsExplained, WereSubmitted};
ghost use Rattle.believed.specs.Progress.{CanServe};
ghost use Rattle.believed.specs.Meaning.{IsLanguage};
ghost use Rattle.believed.specs.Queries.{IsAsking};
ghost use Rattle.sqlchecks.specs.Columns.{Tables};
ghost use Rattle.sqlread.specs.Meaning.{language_of, select_of};
ghost use Rattle.sqlread.specs.Texts.{query_in};

/// Both words come to the same: the world after events, and what events give after others.
pub fn same_runs()
    ensures worlds { (language : Language) (n : ℕ) (w : World) (events : List Event) → run language n w events ≡ model.run language n w events }
    ensures outputs { (language : Language) (n : ℕ) (w : World) (early events : List Event) (outs : List (List Output)) → model.GivesAll language n (model.run language n w early) events outs → GivesAll language n (run language n w early) events outs }
    ensures back { (language : Language) (n : ℕ) (w : World) (early events : List Event) (outs : List (List Output)) → GivesAll language n (run language n w early) events outs → model.GivesAll language n (model.run language n w early) events outs }
{}

/// What is proved of each run from the outset in which no term has begun, in these words: all members agree; one list explains
/// it, and what it gave; what is decided was submitted, and stands in the order of real time; and no majority is stuck.
pub fn promises()
    ensures agree { (language : Language) (n : ℕ) (events : List Event) → Agree language n (new_world n) events }
    ensures explained { (language : Language) (n : ℕ) (events : List Event) → IsExplained language n (new_world n) events }
    ensures given { (language : Language) (n : ℕ) (events : List Event) (outs : List (List Output)) → model.GivesAll language n (new_world n) events outs → Explanation language n events outs }
    ensures invented { (language : Language) (n : ℕ) (events : List Event) → WereSubmitted events (decided language n (new_world n) events) }
    ensures ordered { (language : Language) (n : ℕ) (events : List Event) → IsDecidedInOrder language n (new_world n) events }
    ensures serves { (language : Language) (n : ℕ) (events : List Event) → CanServe language n (run language n (new_world n) events) }
{
    safety::agreement();
    onelist::one_list_explains();
    onelist::nothing_invented();
    onelist::in_real_order();
    progress::always_serves();
}

/// What texts mean, in these words: the schema of some tables reads each text as what it spells, and takes it for the statements
/// that it means.
pub fn meanings()
    ensures { (tables : Tables) → IsLanguage tables (language_of tables) }
{
    sqlread::laws::language_is_spelled();
}

/// What queries ask, in these words: each text is one question over some tables, or has one refusal, and is read so.
pub fn questions()
    ensures { (tables : Tables) → IsAsking tables (λ text. result_map_both select_of (λ refusal. refusal) (query_in tables text)) }
{
    sqlsyntax::laws::forms_told();
}
