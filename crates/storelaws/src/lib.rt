//! The sessions of a store: what it leaves in its databases, and how one goes on from where the one before ended. No function here does
//! anything: what it is for is its contract, which a caller has as a fact.
#![tactic(auto)]

ghost use Rattle.std.specs.Prelude.{◌≡◌, ◌+◌, ◌++◌, ◌∷◌, ℕ, Some, Option, Result, List, [], length, string_bytes};
ghost use Rattle.model.specs.Members.{Node};
ghost use Rattle.model.specs.Worlds.{World};
ghost use Rattle.model.specs.declared.entry.Entry.{Entry};
ghost use Rattle.sessions.specs.Kills.{durable};
ghost use Rattle.sessions.specs.Sessions.{Session, AreSessions, found_after, new_databases};
ghost use Rattle.model.specs.Lists.{nth, IsBeginning};
ghost use Rattle.model.specs.Transactions.{Language};
ghost use Rattle.fault.specs.declared.refusal.Refusal.{Refusal};
ghost use Rattle.answer.specs.declared.Answer.{Answer};
ghost use Rattle.runlaws.specs.Going.{WasTold};
ghost use Rattle.sessions.specs.Together.{ExplainsSessions};
ghost use Rattle.sqlread.specs.Meaning.{language_of};
ghost use Rattle.store.specs.Closing.{AreLeft, IsClosed, images_in};
ghost use Rattle.store.specs.Going.{Anywhere, AreClean, ComesOf, GoesOn, GoesOnSo, IsIn};
ghost use Rattle.store.specs.declared.outcome.Outcome.{Outcome};
ghost use Rattle.store.specs.declared.scribe.Scribe.{Scribe};
ghost use Rattle.store.specs.Fullness.{longest};
ghost use Rattle.store.specs.Opening.{AreFound, AreOpened, Begins, IsRunFrom};
ghost use Rattle.store.specs.Tales.{Told};
ghost use Rattle.storelaws.specs.Sessions.{Answers, AreAfter, Came, Further, HasAnswered, IsFiled, IsListed, IsOnFile, session_of, session_on};

use store::announcing::Announces;
use store::members::Members;
use store::{Databases, Store};

/// What is left. Where a process ends between two calls of its store, whether that is closed or the process is killed, what its databases
/// hold is what the members of the run have stored.
pub fn leaves<K: Announces>(store: &Store<K>)
where
    K::Image: Drop,
    ensures { (w : World) → IsIn K.may_hold K.holds store.now w → (images : List (Option K.Image)) → AreLeft K.may_hold K.holds store.now images → AreFound K.holds images (durable w) }
{}

/// A store that was opened came to where it is by events from what its databases held, while nothing wrong was taken as true.
pub fn comes<K: Announces>(store: &Store<K>)
where
    K::Image: Drop,
    ensures { (images : List (Option K.Image)) (found : List Node) → AreFound K.holds images found → IsRunFrom K.is_honest K.may_hold K.holds images store.now → AreClean K.is_honest K.holds store.now → Came K.may_hold K.holds found store.now }
{}

/// Its session goes on with each call: by events more, which gave what the call says of the outcome of a request.
pub fn goes_on<K: Announces>(old: &Store<K>, new: &Store<K>)
where
    K::Image: Drop,
    ensures goes { (found : List Node) (before : Came K.may_hold K.holds found old.now) → GoesOn K.Journal.contents K.is_honest K.may_hold K.holds old.now new.now → AreClean K.is_honest K.holds new.now →
        (after : Came K.may_hold K.holds found new.now) × Further (λ gave. Unit {0}) before after }
    ensures tells { (found : List Node) (before : Came K.may_hold K.holds found old.now) (client number : ℕ) (outcome : Outcome) → GoesOnSo K.Journal.contents K.is_honest K.may_hold K.holds Anywhere (ComesOf client number outcome) old.now new.now → AreClean K.is_honest K.holds new.now →
        (after : Came K.may_hold K.holds found new.now) × Further (ComesOf client number outcome) before after }
{}

/// A session's journal. While nothing wrong was taken as true, the lines that came to it, from where its scribe stood as the store began,
/// record the starts of its members and each event since, in order: a step whole or cut short, with what was taken and what clocks showed, a
/// start, with what the member had stored, a stop, and no other. Only starts and stops may be missing at the end of a journal that can't be
/// written any more; they store nothing. Each outcome in a `Made` line its member told in the session, and until then these are all that was
/// told there of entries past the longest log as it began, each once, in order. With each call these go on, and what was on the device of
/// them is there still.
pub fn is_filed<K: Announces>(members: &Members<K>, old: &Store<K>, new: &Store<K>)
where
    K::Image: Drop,
    ensures begins { (told : Told) (images : List (Option K.Image)) (found : List Node) (scribe : Scribe K.Journal) → AreFound K.holds images found → AreOpened K.is_honest K.may_hold K.holds told images members.now →
        Begins K.Journal.contents K.is_honest K.may_hold K.holds members.now scribe new.now → AreClean K.is_honest K.holds new.now → IsFiled K.Journal.contents K.may_hold K.holds found scribe (longest members.now.seats.items (λ seat. length seat.chain.links.items)) new.now }
    ensures goes { (found : List Node) (scribe : Scribe K.Journal) (noted : ℕ) (before : IsFiled K.Journal.contents K.may_hold K.holds found scribe noted old.now) → GoesOn K.Journal.contents K.is_honest K.may_hold K.holds old.now new.now → AreClean K.is_honest K.holds new.now →
        (after : IsFiled K.Journal.contents K.may_hold K.holds found scribe noted new.now) × IsBeginning before.recorded.filed after.recorded.filed }
{}

/// What the file has of a session is a beginning of its events, and what the databases hold is what these left. A journal that had nothing in
/// its buffer as the store began has, behind what its device held then, blocks of whole lines, and these record the first events of the
/// session, in order: all of them where nothing is in the buffer, as once an outcome or an answer is told. Nothing else was stored after them.
/// Only where the journal can't be written any more may a part of one block stand behind them.
pub fn is_on_file<K: Announces>(store: &Store<K>)
where
    K::Image: Drop,
    ensures { (found : List Node) (scribe : Scribe K.Journal) (noted : ℕ) → string_bytes scribe.buffer ≡ [] → (filed : IsFiled K.Journal.contents K.may_hold K.holds found scribe noted store.now) → IsOnFile K.Journal.contents scribe filed.came }
{}

/// What a store gives back when it is closed is what is left of it where its process is killed instead: so `leaves` and `next_session` say
/// of the one what they say of the other.
pub fn closes<K: Announces>(store: &Store<K>, databases: &Databases<K>)
where
    K::Image: Drop,
    ensures { IsClosed K.may_hold K.holds store.now databases.now.seats.items → AreLeft K.may_hold K.holds store.now (images_in databases.now.seats.items) }
{}

/// The next session. Where a store came from what some sessions left, they and its own are sessions one after the other, and whatever is
/// found of its databases once its process has ended between two calls is what these left.
pub fn next_session<K: Announces>(store: &Store<K>)
where
    K::Image: Drop,
    ensures { (sessions : List Session) (came : Came K.may_hold K.holds (found_after (new_databases (length store.now.seats.items)) sessions) store.now) →
        AreSessions (language_of store.now.schema) (length store.now.seats.items) (new_databases (length store.now.seats.items)) sessions → (left : List (Option K.Image)) → AreLeft K.may_hold K.holds store.now left →
        AreAfter K.holds (language_of store.now.schema) (length store.now.seats.items) (sessions ++ session_of came ∷ []) left }
{}

/// The next session, as its file has it: the same of the events that whole blocks on the journal's device record, and of what these gave. So it
/// is whatever calls came to, also where the device or a database failed in the midst of one.
pub fn next_on_file<K: Announces>(store: &Store<K>)
where
    K::Image: Drop,
    ensures { (sessions : List Session) (scribe : Scribe K.Journal) (came : Came K.may_hold K.holds (found_after (new_databases (length store.now.seats.items)) sessions) store.now) (on : IsOnFile K.Journal.contents scribe came) →
        AreSessions (language_of store.now.schema) (length store.now.seats.items) (new_databases (length store.now.seats.items)) sessions → (left : List (Option K.Image)) → AreLeft K.may_hold K.holds store.now left →
        AreAfter K.holds (language_of store.now.schema) (length store.now.seats.items) (sessions ++ session_on on ∷ []) left }
{}

/// An answer is an event more of the session: the member of a seat, which has `at` others before it, was asked, and gave it.
pub fn answers<K: Announces>(store: &Store<K>)
where
    K::Image: Drop,
    ensures { (found : List Node) (before : Came K.may_hold K.holds found store.now) (at : ℕ) (text : List ℕ) (answer : Answer) → AreClean K.is_honest K.holds store.now → HasAnswered K.is_honest store.now at text answer →
        Answers K.may_hold K.holds found store.now before (at + 1) text answer }
{}

/// All sessions of a store, one after the other, have one list that explains them.
pub fn one_list<K: Announces>(store: &Store<K>)
where
    K::Image: Drop,
    ensures { (language : Language) (n : ℕ) (sessions : List Session) (left : List (Option K.Image)) → AreAfter K.holds language n sessions left → (list : List Entry) × ExplainsSessions language sessions list }
{
    sessions::one_list_explains_sessions();
}

/// What was told of a request in any session stands in the one list that explains them all.
pub fn is_told()
    ensures { (language : Language) (sessions : List Session) (list : List Entry) → ExplainsSessions language sessions list → (i : ℕ) (session : Session) → nth sessions i ≡ Some session →
        (client number : ℕ) (outcome : Result ℕ Refusal) → WasTold session.gave client number outcome → IsListed language list client number outcome }
{}
