//! Whether one run explains what nodes recorded.
ghost use Rattle.std.specs.Prelude.{◌≡◌, ◌≢◌, ◌≤◌, length, IfErr, OnOk};
ghost use Rattle.moments.specs.declared.recorded.AuditFault.TheVariants.{NoMemory as NoMemoryLeft};
ghost use Rattle.auditor.specs.Verdict.{IsExplained, IsFaultOf, evidence_of};

use crate::auditing::audit;
use flight::Records;
use flight::flight::Version;
use flight::life::Life;
use moments::{AuditFault, Recorded, all_answers};
use schema::Schema;
use std::alloc::Global;

// Whether there are such events as `audit` gives.
fn check_run(
    alloc: Global,
    version: Version,
    schema: &Schema,
    lives: &[Vec<Life>],
    answers: &[Recorded],
) -> Result<(), AuditFault>
    requires least { 3 ≤ length lives.now }
    requires most { length lives.now ≤ 7 }
    ensures yes { OnOk result (IsExplained (record { version = version; tables = schema.now; lives = lives.now; answers = answers.now })) }
    ensures no { IfErr result (λ fault. fault ≢ NoMemoryLeft → IsFaultOf (record { version = version; tables = schema.now; lives = lives.now; answers = answers.now }) fault) }
{
    let _events = audit(alloc, version, schema, lives, answers)?;
    Ok(())
}

/// Whether the events of one run explain all lives and answers of a group of 3 to 7 nodes, in flights of this version. The fault is
/// that of `audit`.
pub fn judge(
    alloc: Global,
    version: Version,
    schema: &Schema,
    records: &Records,
) -> Result<(), AuditFault>
    requires least { 3 ≤ length records.now.lives.items }
    requires most { length records.now.lives.items ≤ 7 }
    ensures yes { OnOk result (IsExplained (evidence_of version schema.now records.now.lives.items records.now.answers.items)) }
    ensures no { IfErr result (λ fault. fault ≢ NoMemoryLeft → IsFaultOf (evidence_of version schema.now records.now.lives.items records.now.answers.items) fault) }
{
    let answers = all_answers(alloc, records.answers.as_slice())?;
    let lives = records.lives.as_slice();
    check_run(alloc, version, schema, lives, answers.as_slice())
}
