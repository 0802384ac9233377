//! The order in which a run's requests and answers stand, and the one list of requests that explains
//! a run. No function here does anything: what it is for is its contract, which a caller has as a fact.
//!
//! What is said of runs is said of every number of members, every language and every list of events
//! (deliveries, repeats, losses, timeouts, requests, floors, clock readings, stops, starts and steps
//! cut short), from each of two outsets. `new` is of the one in which no term has begun and nobody leads,
//! `led` of the one in which all are in term 1, voted for member 1, and it leads.
#![tactic(auto)]

ghost use Rattle.std.specs.Prelude.{ℕ, List, ◌++◌};
ghost use Rattle.model.specs.Transactions.{Language};
ghost use Rattle.model.specs.Worlds.{World, Event, Output, new_world, led_world, run, GivesAll};
ghost use Rattle.model.specs.Agreement.{decided};
ghost use Rattle.onelist.specs.Explained.{OneListExplains, IsExplained, IsDecidedInOrder, WereSubmitted};
ghost use Rattle.onelist.specs.Order.{NothingInvented, NoLogInvented, NothingSentInvented, EachWasMade, NoneMadeTwo, InRealOrder, LoggedInOrder, AcceptedInOrder, StampedAfterAnswers, AnswersGoForward, AnswersHaveWhatWasTold};
ghost use Rattle.onelist.specs.OrderRows.{ClockFalls, TornSubmit, RestartFallsBack};

/// One list explains all. To each run there is one list of requests, with instants that rise, and all
/// that any member told or answered is what a single database says that executes this list in its
/// order, whatever was lost, late, repeated or cut short. Where the run goes on, its list goes on, so
/// what was once explained stays so.
///
/// 1. What a member told of a request is its outcome in the list.
/// 2. What a member answered is the answer to its question in the list, AS OF the instant that the
///    answer names where the question has no system time.
/// 3. Each request in the list was submitted, by an event of its own.
/// 4. A request that is first submitted after another was told of stands behind that one, and one that
///    is first submitted after an answer has an instant above the one that the answer names.
/// 5. What a member told of, and what it answered, is in what it answers later without system time,
///    unless it was stopped in between.
pub fn one_list_explains()
    ensures new { (language : Language) (n : ℕ) → OneListExplains language n (new_world n) }
    ensures new_run { (language : Language) (n : ℕ) (events : List Event) → IsExplained language n (new_world n) events }
    ensures led { (language : Language) (n : ℕ) → OneListExplains language n (led_world n) }
    ensures led_run { (language : Language) (n : ℕ) (events : List Event) → IsExplained language n (led_world n) events }
{}

/// A run in pieces: what some events gave, and then what others gave after them, is what all of them give.
pub fn run_in_pieces()
    ensures { (language : Language) (n : ℕ) (w : World) (early late : List Event) (outs more : List (List Output)) → GivesAll language n w early outs → GivesAll language n (run language n w early) late more → GivesAll language n w (early ++ late) (outs ++ more) }
{}

/// Nothing is invented: each request that is decided, that stands in a member's log, or that an
/// `Append` carries which was ever sent, was brought by an event of the run. It was submitted to a
/// member, whole or in a step that was cut short once it was stored; at no moment before did it stand
/// in anybody's log, and after the event it stands in that member's. So was each entry that is
/// decided and has a request, by an event of its own: what is submitted once is decided at most once.
pub fn nothing_invented()
    ensures new { (language : Language) (n : ℕ) → NothingInvented language n (new_world n) }
    ensures new_logs { (language : Language) (n : ℕ) → NoLogInvented language n (new_world n) }
    ensures new_sent { (language : Language) (n : ℕ) → NothingSentInvented language n (new_world n) }
    ensures new_entries { (language : Language) (n : ℕ) → EachWasMade language n (new_world n) }
    ensures new_apart { (language : Language) (n : ℕ) → NoneMadeTwo language n (new_world n) }
    ensures new_run { (language : Language) (n : ℕ) (events : List Event) → WereSubmitted events (decided language n (new_world n) events) }
    ensures led { (language : Language) (n : ℕ) → NothingInvented language n (led_world n) }
    ensures led_logs { (language : Language) (n : ℕ) → NoLogInvented language n (led_world n) }
    ensures led_sent { (language : Language) (n : ℕ) → NothingSentInvented language n (led_world n) }
    ensures led_entries { (language : Language) (n : ℕ) → EachWasMade language n (led_world n) }
    ensures led_apart { (language : Language) (n : ℕ) → NoneMadeTwo language n (led_world n) }
    ensures led_run { (language : Language) (n : ℕ) (events : List Event) → WereSubmitted events (decided language n (led_world n) events) }
{}

/// In real order: a request that no event had submitted when some member told of another stands after
/// that one in all that is ever decided, with a greater stamp, and so does one that by then stood in
/// nobody's log. Where both are told as accepted, the later is so at a later instant, however often it
/// is submitted. And a request that no event had submitted when some member answered a question is
/// stamped above the last instant that the answer names.
pub fn in_real_order()
    ensures new { (language : Language) (n : ℕ) → InRealOrder language n (new_world n) }
    ensures new_logged { (language : Language) (n : ℕ) → LoggedInOrder language n (new_world n) }
    ensures new_accepted { (language : Language) (n : ℕ) → AcceptedInOrder language n (new_world n) }
    ensures new_answers { (language : Language) (n : ℕ) → StampedAfterAnswers language n (new_world n) }
    ensures new_run { (language : Language) (n : ℕ) (events : List Event) → IsDecidedInOrder language n (new_world n) events }
    ensures led { (language : Language) (n : ℕ) → InRealOrder language n (led_world n) }
    ensures led_logged { (language : Language) (n : ℕ) → LoggedInOrder language n (led_world n) }
    ensures led_accepted { (language : Language) (n : ℕ) → AcceptedInOrder language n (led_world n) }
    ensures led_answers { (language : Language) (n : ℕ) → StampedAfterAnswers language n (led_world n) }
    ensures led_run { (language : Language) (n : ℕ) (events : List Event) → IsDecidedInOrder language n (led_world n) events }
{}

/// Answers go forward, at one member that stays up: a question without system time is answered AS OF
/// no smaller instant than the last one that an earlier answer named, and than that of a request which
/// the member told of as accepted.
pub fn answers_go_forward()
    ensures new { (language : Language) (n : ℕ) → AnswersGoForward language n (new_world n) }
    ensures new_told { (language : Language) (n : ℕ) → AnswersHaveWhatWasTold language n (new_world n) }
    ensures led { (language : Language) (n : ℕ) → AnswersGoForward language n (led_world n) }
    ensures led_told { (language : Language) (n : ℕ) → AnswersHaveWhatWasTold language n (led_world n) }
{}

/// Worked rows of order: a request stands after what was told before, though the leader's clock went
/// back; a step that is cut short brings its request exactly where it was stored; and a member that
/// was started again may have a closed time below what it was, which is why `answers_go_forward` is
/// said of a member that stays up.
pub fn rows_of_order()
    ensures clock_falls { ClockFalls }
    ensures torn_submit { TornSubmit }
    ensures restart_falls_back { RestartFallsBack }
{}
