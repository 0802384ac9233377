//! What members' databases hold.
ghost use Rattle.std.specs.Prelude.{◌≡◌, IfOk};
ghost use Rattle.journal.specs.Digests.{summary_of};
ghost use Rattle.node.specs.Member.{member_of};
ghost use Rattle.node.specs.View.{durable_of};
ghost use Rattle.store.specs.HeldAt.{entries_in, IsFound};

use crate::announcing::Judging;
use crate::held::HeldLog;
use crate::known::KnownLog;
use crate::refusal::StoreRefusal;
use fault::Refusal;
use journal::Summary;
use model::member::Member;
use node::Node;
use schema::Schema;
use std::alloc::Global;

/// What a member's database holds.
#[derive(Drop)]
pub struct Found<I: Drop> {
    /// In short.
    pub summary: Summary,
    /// Its log.
    pub log: HeldLog,
    /// The database, with what it holds.
    pub image: I,
}

// What a node has stored: in short, and its log.
fn held_by<K: Judging>(
    alloc: Global,
    node: &mut Node<K>,
    known: &mut KnownLog,
) -> Result<(Summary, HeldLog), StoreRefusal>
where
    K::Image: Drop,
    ensures is { IfOk result (λ held. K.is_honest node.new.keeper → (held.0 ≡ summary_of (durable_of (member_of node.old))) × (entries_in held.1 ≡ (durable_of (member_of node.old)).log)) }
    ensures honest { K.is_honest node.new.keeper → K.is_honest node.old.keeper }
{
    let log = HeldLog::new(alloc, node.entries()?, known)?;
    Ok((log.summary(node.hard_state()), log))
}

/// What the database of one of so many members holds. 49 where it holds no state of a member; 41 where there is no such member; 40 and 43
/// where it can't be read.
pub fn found_in<K: Judging>(
    alloc: Global,
    database: K::Image,
    schema: &Schema,
    members: usize,
    member: Member,
    known: &mut KnownLog,
) -> Result<Found<K::Image>, StoreRefusal>
where
    K::Image: Drop,
    ensures { IfOk result (λ found. IsFound K.holds K.is_sound database found.image found.summary (entries_in found.log)) }
{
    if members > 7 || member < 1 || member > members {
        return Err(StoreRefusal::Refused(Refusal::NodeDown));
    }
    let schema = schema.clone()?;
    let mut node = match Node::<K>::start(alloc, database, schema, members, member) {
        Ok(node) => node,
        Err((error, _)) => return Err(refusal_of(Refusal::from(error), member)),
    };
    let held = held_by(alloc, &mut node, known);
    let image = node.stop();
    let (summary, log) = held?;
    Ok(Found {
        summary,
        log,
        image,
    })
}

// A database that holds no state of a member is one that was altered.
fn refusal_of(refusal: Refusal, member: Member) -> StoreRefusal {
    match refusal {
        Refusal::BadStore => StoreRefusal::Altered {
            member,
            entry: None,
        },
        refusal => StoreRefusal::Refused(refusal),
    }
}
