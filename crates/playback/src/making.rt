//! What a member has stored, put into a store that is new.
ghost use Rattle.std.specs.Prelude.{◌≡◌, ◌≤◌, true, IfOk, OnOk};
ghost use Rattle.keep.specs.Log.{is_vote};
ghost use Rattle.model.specs.Steps.{TERM_LAST};
ghost use Rattle.node.specs.Member.{member_of, members_of, tables_of, IsSameSeat};
ghost use Rattle.node.specs.View.{durable_of};
ghost use Rattle.sqlread.specs.Meaning.{language_of};
ghost use Rattle.model.specs.Transactions.{Language};
ghost use Rattle.playback.specs.Making.{HoldsJust};

use fault::Refusal;
use keep::{Change, HardState, Keeper};
use model::entry::{Entries, Entry};
use model::member::Member;
use model::message::{Body, CARRIED_MOST, LAST_TERM, Message};
use node::recall::is_same_entry;
use node::{Fault, Node, Work};
use schema::Schema;
use std::alloc::Global;
use store::StoreRefusal;

fn bad_store() -> StoreRefusal {
    StoreRefusal::Refused(Refusal::BadStore)
}

// Whether a member of so many may have this hard state.
fn is_in_range(hard: &HardState, members: usize) -> bool
    requires { members ≤ 7 }
    ensures { result ≡ true → (hard.now.term ≤ TERM_LAST) × (is_vote members hard.now.vote ≡ true) × (is_vote TERM_LAST hard.now.vote ≡ true) }
{
    let is_member = match hard.vote {
        None => true,
        Some(vote) => vote > 0 && vote <= members,
    };
    hard.term <= LAST_TERM && is_member
}

// Stores this hard state, with an empty log, in the place of what is stored.
fn begin_with<K: Keeper>(
    alloc: Global,
    keeper: &mut K,
    members: usize,
    hard: HardState,
) -> Result<(), StoreRefusal>
    requires few { members ≤ 7 }
    requires serves { (language : Language) × K.serves keeper.old members language }
    ensures serves { (language : Language) → K.serves keeper.old members language → OnOk result (K.serves keeper.new members language) }
{
    if !is_in_range(&hard, members) {
        return Err(bad_store());
    }
    let change = Change {
        hard,
        kept: 0,
        entries: Vec::new(alloc),
    };
    Ok(keeper.save(alloc, &change)?)
}

// The image with this hard state and an empty log, in the place of what it holds.
fn begun<K: Keeper>(
    alloc: Global,
    image: K::Image,
    schema: &Schema,
    members: usize,
    hard: HardState,
) -> Result<K::Image, StoreRefusal>
where
    K::Image: Drop,
    requires few { members ≤ 7 }
    requires suits { K.suits image members (language_of schema.now) }
    ensures { IfOk result (λ made. K.suits made members (language_of schema.now)) }
{
    let mut keeper = match K::open(alloc, image, members, schema) {
        Ok(keeper) => keeper,
        Err((error, _)) => return Err(StoreRefusal::from(error)),
    };
    let stored = begin_with(alloc, &mut keeper, members, hard);
    let image = keeper.close();
    stored?;
    Ok(image)
}

// Brings a node entries in this term, which come after an index that has an entry of another one.
fn append<K: Keeper>(
    alloc: Global,
    node: &mut Node<K>,
    term: u64,
    prev_index: usize,
    prev_term: u64,
    entries: &[Entry],
) -> Result<(), StoreRefusal>
    ensures { IsSameSeat node.old node.new }
{
    let me = node.me();
    let message = Message {
        sender: if me == 1 { 2 } else { 1 },
        addressee: me,
        term,
        body: Body::Append {
            prev_index,
            prev_term,
            entries: Entries::new(entries.to_vec(alloc)?),
            commit: 0,
        },
    };
    let work = Work::Delivered {
        reading: 0,
        message,
    };
    match node.step(work) {
        Ok(_) => Ok(()),
        Err(Fault::Kept(refusal)) => Err(StoreRefusal::Refused(refusal)),
        Err(Fault::Down(error)) => Err(StoreRefusal::from(error)),
    }
}

// Brings a node, whose log is empty, these entries in this term.
fn append_all<K: Keeper>(
    alloc: Global,
    node: &mut Node<K>,
    term: u64,
    entries: &[Entry],
) -> Result<(), StoreRefusal>
    ensures { IsSameSeat node.old node.new }
{
    let mut index = 0usize;
    let mut before = 0;
    for batch in entries.chunks(CARRIED_MOST) {
        append(alloc, node, term, index, before, batch)?;
        index = index.saturating_add(batch.len());
        if let Some(last) = batch.last() {
            before = last.term;
        }
    }
    Ok(())
}

/// Whether these entries are those.
pub(crate) fn are_same_entries(some: &[Entry], others: &[Entry]) -> bool
    ensures { result ≡ true → some.now ≡ others.now }
{
    if some.len() != others.len() {
        return false;
    }
    for place in 0..some.len() {
        if !is_same_entry(&some[place], &others[place]) {
            return false;
        }
    }
    true
}

// Whether a node has just this stored.
fn has_just<K: Keeper>(
    node: &mut Node<K>,
    hard: HardState,
    entries: &[Entry],
) -> Result<bool, StoreRefusal>
    ensures seat { IsSameSeat node.old node.new }
    ensures is { IfOk result (λ is. is ≡ true → (node.new.is_up ≡ true) × (K.is_honest node.new.keeper → durable_of (member_of node.new) ≡ record { hard = hard; log = entries.now })) }
{
    let own = node.entries()?;
    Ok(node.hard_state() == hard && are_same_entries(own.as_slice(), entries))
}

// Stops a node that has just this stored; 44 of another one.
fn stop_with<K: Keeper>(
    node: Node<K>,
    hard: HardState,
    entries: &[Entry],
) -> Result<K::Image, StoreRefusal>
where
    K::Image: Drop,
    ensures suits { IfOk result (λ image. K.suits image (members_of node) (language_of (tables_of node))) }
    ensures just { IfOk result (λ image. HoldsJust K.holds K.is_sound image (record { hard = hard; log = entries.now })) }
{
    let mut node = node;
    let checked = has_just(&mut node, hard, entries);
    let image = node.stop();
    if checked? {
        Ok(image)
    } else {
        Err(bad_store())
    }
}

/// Puts into an image, in the place of what it holds, what a member of a group of up to 7 has stored: its hard state, and a log of these
/// entries. The image that it gives holds just this.
///
/// 44 of what no such member can have stored; 40 where the store fails, and 43. The image is gone then.
pub fn remake<K: Keeper>(
    alloc: Global,
    image: K::Image,
    schema: &Schema,
    members: usize,
    me: Member,
    hard: HardState,
    entries: &[Entry],
) -> Result<K::Image, StoreRefusal>
where
    K::Image: Drop,
    requires few { members ≤ 7 }
    requires member { (1 ≤ me) × (me ≤ members) }
    requires suits { K.suits image members (language_of schema.now) }
    ensures suits { IfOk result (λ made. K.suits made members (language_of schema.now)) }
    ensures just { IfOk result (λ made. HoldsJust K.holds K.is_sound made (record { hard = hard; log = entries.now })) }
{
    let image = begun::<K>(alloc, image, schema, members, hard)?;
    let mut node = match Node::<K>::start(alloc, image, schema.clone()?, members, me) {
        Ok(node) => node,
        Err((error, _)) => return Err(StoreRefusal::from(error)),
    };
    let appended = append_all(alloc, &mut node, hard.term, entries);
    let made = stop_with(node, hard, entries);
    appended?;
    made
}
