//! The audit.
ghost use Rattle.std.specs.Prelude.{◌≡◌, ◌≤◌, List, length, map, IfOk, IfErr, OnOk};
ghost use Rattle.believed.specs.Agreement.{Agree};
ghost use Rattle.believed.specs.Explained.{IsExplained};
ghost use Rattle.believed.specs.Meaning.{IsLanguage};
ghost use Rattle.model.specs.Worlds.{Event as ModelEvent, new_world};
ghost use Rattle.sqlread.specs.Meaning.{language_of};
ghost use Rattle.world.specs.Run.{tables_in, members_in};
ghost use Rattle.world.specs.View.{event_of};
ghost use Rattle.moments.specs.Faults.{IsNo, NoneAre};
ghost use Rattle.moments.specs.Rising.{Rise};
ghost use Rattle.moments.specs.View.{past_of, IsLive};
ghost use Rattle.auditor.specs.Audited.{Explains as ExplainsThen, IsFirst as IsFirstThen, IsStuck};
ghost use Rattle.auditor.specs.Faults.{IsOrderFault, OfRun};
ghost use Rattle.auditor.specs.Joined.{Explains, IsFirst, Upholds};
ghost use Rattle.auditor.specs.View.{IsLed};

use flight::flight::Version;
use flight::life::Life;
use moments::laws::one_text;
use moments::{AuditFault, Moment, Recorded, Replay, check_order, timeline};
use schema::Schema;
use std::alloc::Global;
use world::event::Event;

// Each moment in turn.
fn follow_all(
    replay: &mut Replay,
    version: Version,
    schema: &Schema,
    lives: &[Vec<Life>],
    answers: &[Recorded],
    moments: &[Moment],
) -> Result<(), AuditFault>
    requires live { IsLive replay.old }
    requires tables { schema.now ≡ tables_in replay.old.world }
    ensures ok { OnOk result ((events : List ModelEvent) × IsLed (record { version = version; tables = tables_in replay.old.world; lives = lives.now; answers = answers.now }) (members_in replay.old.world) replay.old replay.new moments.now events) }
    ensures fault { IfErr result (IsNo (IsStuck (record { version = version; tables = tables_in replay.old.world; lives = lives.now; answers = answers.now }) (members_in replay.old.world) (past_of replay.old) moments.now)) }
{
    for moment in moments {
        replay.follow(version, schema, lives, answers, moment)?;
    }
    Ok(())
}

// The events of a run that explains what was recorded.
pub(crate) fn explain(
    alloc: Global,
    version: Version,
    schema: &Schema,
    lives: &[Vec<Life>],
    answers: &[Recorded],
) -> Result<Vec<Event>, AuditFault>
    requires least { 3 ≤ length lives.now }
    requires most { length lives.now ≤ 7 }
    ensures ok { IfOk result (λ events. ExplainsThen (record { version = version; tables = schema.now; lives = lives.now; answers = answers.now }) (map event_of events.items)) }
    ensures fault { IfErr result (IsNo (IsFirstThen (record { version = version; tables = schema.now; lives = lives.now; answers = answers.now }))) }
{
    let moments = timeline(alloc, lives, answers)?;
    let mut replay = Replay::new(alloc, lives.len(), schema.clone()?)?;
    follow_all(&mut replay, version, schema, lives, answers, &moments)?;
    Ok(replay.into_events())
}

/// Audits what was recorded of a group of 3 to 7 nodes, in flights of this version: the lives of each, in the order of
/// the nodes, and the answers that they gave. The lives are joined, moment by moment in order of marks and then of
/// nodes, to the events of one run from its outset; a moment that the run does not have ends the audit.
///
/// The events are those of a run that explains all of it: each node begins, takes what it took and tells what it told,
/// is cut short, answers and ends as was recorded. Of flights of version 1 it is not known what the steps told, and
/// their outcomes are not looked at. What a life begins with is its term, vote, floor and log; of versions 1 and 2 it has
/// no floor. All members agree about the events, and one list of requests explains all that they told and answered in
/// it, in order, as `World::run` says. So, of all that was recorded: each outcome that a step told is that of its request
/// in the one list of decided entries, run one at a time; each answer is what that list gives, and nothing that was decided
/// later bears an instant that it asked about, or it says that the question was not closed; and answers to one question
/// are equal, whichever nodes gave them and whenever.
///
/// A fault is 53 exactly where the marks of a node do not rise over its openings and steps, or a message's is not
/// below that of the step that takes it; 43 aside. Else no events explain what was recorded, and it is the fault of the
/// first moment that the run does not have: 51 of a life that begins with what the run does not have there, 52 of a message
/// that was not sent then, or 54 of a step that tells other outcomes than those that were recorded, of one that was cut short
/// and tells any, or of an answer that rests on no mark of its node or that the run does not give. A moment of an answer
/// stands after what its node does at the mark that it names, whether the node has that mark or not.
pub fn audit(
    alloc: Global,
    version: Version,
    schema: &Schema,
    lives: &[Vec<Life>],
    answers: &[Recorded],
) -> Result<Vec<Event>, AuditFault>
    requires least { 3 ≤ length lives.now }
    requires most { length lives.now ≤ 7 }
    ensures rise { OnOk result (Rise lives.now) }
    ensures ok { IfOk result (λ events. Explains (record { version = version; tables = schema.now; lives = lives.now; answers = answers.now }) (map event_of events.items)) }
    ensures agree { IfOk result (λ events. Agree (language_of schema.now) (length lives.now) (new_world (length lives.now)) (map event_of events.items)) }
    ensures explained { IfOk result (λ events. IsExplained (language_of schema.now) (length lives.now) (new_world (length lives.now)) (map event_of events.items)) }
    ensures upholds { IfOk result (λ events. Upholds (record { version = version; tables = schema.now; lives = lives.now; answers = answers.now }) (map event_of events.items)) }
    ensures order { IfErr result (IsOrderFault lives.now) }
    ensures no { IfErr result (OfRun (λ _. NoneAre (Explains (record { version = version; tables = schema.now; lives = lives.now; answers = answers.now })))) }
    ensures first { IfErr result (OfRun (IsFirst (record { version = version; tables = schema.now; lives = lives.now; answers = answers.now }))) }
    ensures language { IsLanguage schema.now (language_of schema.now) }
{
    safety::agreement();
    safety::one_answer();
    one_text();
    believed::promises();
    believed::meanings();
    believed::questions();
    check_order(lives)?;
    explain(alloc, version, schema, lives, answers)
}
