//! Wrong bodies that no contract here lets through: functions that do nothing but call what they speak of.
ghost use Rattle.std.specs.Prelude.{◌≡◌, ◌≢◌, ◌≤◌, [], ℕ, List, Option, Some, Contains, length, IfErr, IfOk, IsErr};
ghost use Rattle.believed.specs.Refusals.{shown};
ghost use Rattle.fault.specs.declared.refusal.Refusal.TheVariants.{NotClosed};
ghost use Rattle.flight.specs.declared.life.Step as in_life;
ghost use Rattle.model.specs.Answers.{Answer};
ghost use Rattle.model.specs.Worlds.{Event as ModelEvent};
ghost use Rattle.moments.specs.Behind.{step_at};
ghost use Rattle.moments.specs.Rising.{Rise};
ghost use Rattle.moments.specs.declared.recorded.AuditFault.TheVariants.{NoMemory};
ghost use Rattle.moments.specs.declared.recorded.Recorded as recorded;
ghost use Rattle.auditor.specs.Joined.{Explains, IsUpheld};
ghost use Rattle.auditor.specs.Verdict.{evidence_of};

use crate::auditing::{audit, explain};
use crate::verdict::judge;
use flight::Records;
use flight::flight::Version;
use flight::life::Life;
use moments::{AuditFault, Recorded};
use schema::Schema;
use std::alloc::Global;
use world::event::Event;

/// A function that plays no moment, and so explains a step by no event, does not meet the contract of `explain`.
fn explains_a_step_by_nothing(
    alloc: Global,
    version: Version,
    schema: &Schema,
    lives: &[Vec<Life>],
    answers: &[Recorded],
) -> Result<Vec<Event>, AuditFault>
    requires least { 3 ≤ length lives.now }
    requires most { length lives.now ≤ 7 }
    ensures { IfOk result (λ events. (node life place : ℕ) (step : in_life.Step) → step_at lives.now node life place ≡ Some step → events.items ≢ []) }
{
    explain(alloc, version, schema, lives, answers)
}

/// A function that finds a fault, but for want of memory, in what a run explains does not meet the contract of `audit`.
fn faults_what_a_run_explains(
    alloc: Global,
    version: Version,
    schema: &Schema,
    lives: &[Vec<Life>],
    answers: &[Recorded],
) -> Result<Vec<Event>, AuditFault>
    ghost events: { List ModelEvent }
    requires least { 3 ≤ length lives.now }
    requires most { length lives.now ≤ 7 }
    requires rise { Rise lives.now }
    requires explained { Explains (record { version = version; tables = schema.now; lives = lives.now; answers = answers.now }) events }
    ensures { IfErr result (λ fault. fault ≡ NoMemory) }
{
    audit(alloc, version, schema, lives, answers)
}

/// A function that leaves the answers out, and so accepts one that no run gives, does not meet the contract of `judge`.
fn accepts_any_answer(
    alloc: Global,
    version: Version,
    schema: &Schema,
    records: &Records,
) -> Result<(), AuditFault>
    ghost answer: { recorded.Recorded }
    requires least { 3 ≤ length records.now.lives.items }
    requires most { length records.now.lives.items ≤ 7 }
    requires recorded { Contains (evidence_of version schema.now records.now.lives.items records.now.answers.items).answers answer }
    requires unheld { (events : List ModelEvent) (x : Answer) → IsUpheld (evidence_of version schema.now records.now.lives.items records.now.answers.items) events answer x → ⊥ }
    requires closed { (time : Option (List ℕ)) → answer.answer ≢ shown (NotClosed time) }
    ensures { IsErr result }
{
    judge(alloc, version, schema, records)
}
