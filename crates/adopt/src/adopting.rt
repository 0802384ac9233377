//! The first journal of a store, of what nodes recorded.
ghost use Rattle.std.specs.Prelude.{◌≡◌, ◌≤◌, true, List, [], length, IfOk, IfErr, OnOk, string_bytes};
ghost use Rattle.world.specs.Run.{tables_in, members_in};
ghost use Rattle.moments.specs.Faults.{IsNo};
ghost use Rattle.moments.specs.Rising.{Rise};
ghost use Rattle.moments.specs.View.{past_of, IsLive};
ghost use Rattle.auditor.specs.Audited.{IsFirst, IsStuck};
ghost use Rattle.auditor.specs.Faults.{IsOrderFault, OfRun};
ghost use Rattle.journal.specs.Blocks.{lines_block};
ghost use Rattle.journal.specs.declared.line.Line.{Line as AnyLine};
ghost use Rattle.adopt.specs.Spelled.{IsJournalOf};
ghost use Rattle.adopt.specs.Versions.{has_outcomes};
ghost use Rattle.adopt.specs.View.{AreTold};

use crate::telling::Telling;
use flight::flight::Version;
use flight::life::Life;
use journal::blocks::put_block;
use journal::{Line, put_lines};
use moments::{AuditFault, Moment, Recorded, check_order, timeline};
use schema::Schema;
use std::alloc::{AllocError, Global};

// Each moment in turn.
fn tell_all(
    telling: &mut Telling,
    version: Version,
    schema: &Schema,
    lives: &[Vec<Life>],
    answers: &[Recorded],
    moments: &[Moment],
) -> Result<(), AuditFault>
    requires live { IsLive telling.old.replay }
    requires tables { schema.now ≡ tables_in telling.old.replay.world }
    requires least { 3 ≤ length lives.now }
    requires most { length lives.now ≤ 7 }
    requires members { members_in telling.old.replay.world ≡ length lives.now }
    ensures ok { OnOk result (AreTold (record { version = version; tables = tables_in telling.old.replay.world; lives = lives.now; answers = answers.now }) (members_in telling.old.replay.world) telling.old telling.new moments.now) }
    ensures fault { IfErr result (IsNo (IsStuck (record { version = version; tables = tables_in telling.old.replay.world; lives = lives.now; answers = answers.now }) (members_in telling.old.replay.world) (past_of telling.old.replay) moments.now)) }
{
    for moment in moments {
        telling.tell(version, schema, lives, answers, moment)?;
    }
    Ok(())
}

// The lines of the journal.
fn journal_lines(
    alloc: Global,
    sum: u64,
    version: Version,
    schema: &Schema,
    lives: &[Vec<Life>],
    answers: &[Recorded],
) -> Result<Vec<Line>, AuditFault>
    requires least { 3 ≤ length lives.now }
    requires most { length lives.now ≤ 7 }
    ensures lines { IfOk result (λ lines. IsJournalOf (record { version = version; tables = schema.now; lives = lives.now; answers = answers.now }) sum lines.items) }
    ensures fault { IfErr result (IsNo (IsFirst (record { version = version; tables = schema.now; lives = lives.now; answers = answers.now }))) }
{
    let moments = timeline(alloc, lives, answers)?;
    let mut telling = Telling::new(alloc, lives.len(), schema.clone()?, sum)?;
    tell_all(&mut telling, version, schema, lives, answers, &moments)?;
    telling.tell_last(lives)?;
    Ok(telling.lines)
}

// The text of these lines as one block, after a block of this sum.
fn block_of(alloc: Global, sum: u64, lines: &[Line]) -> Result<String, AllocError>
    ensures { IfOk result (λ text. string_bytes text ≡ lines_block sum lines.now []) }
{
    let mut body = String::new(alloc);
    put_lines(alloc, lines, &mut body)?;
    let mut text = String::new(alloc);
    let _sum = put_block(sum, body.as_str(), &mut text)?;
    Ok(text)
}

/// The text of the first journal of a store, after a form of this sum, in which all happens that was recorded of a group of 3 to 7 nodes
/// in flights of version 2 or 3: the lives of each, in the order of the nodes, and the answers that they gave. It is one block.
///
/// Moment by moment, in the order in which an audit joins the lives, its lines say what begins, what is taken, with which messages of
/// those that were sent so far, what is first told of a request, what is answered, and what is stored as a life ends. What an audit
/// refuses is refused so, by 51 to 54.
pub fn first_journal(
    alloc: Global,
    sum: u64,
    version: Version,
    schema: &Schema,
    lives: &[Vec<Life>],
    answers: &[Recorded],
) -> Result<String, AuditFault>
    requires least { 3 ≤ length lives.now }
    requires most { length lives.now ≤ 7 }
    requires told { has_outcomes version ≡ true }
    ensures rise { OnOk result (Rise lives.now) }
    ensures text { IfOk result (λ text. (lines : List AnyLine) × IsJournalOf (record { version = version; tables = schema.now; lives = lives.now; answers = answers.now }) sum lines × (string_bytes text ≡ lines_block sum lines [])) }
    ensures order { IfErr result (IsOrderFault lives.now) }
    ensures first { IfErr result (OfRun (IsFirst (record { version = version; tables = schema.now; lives = lives.now; answers = answers.now }))) }
{
    check_order(lives)?;
    let lines = journal_lines(alloc, sum, version, schema, lives, answers)?;
    Ok(block_of(alloc, sum, &lines)?)
}
