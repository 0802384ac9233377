//! What a keeper has stored, read as a node starts, and its log.
ghost use Rattle.std.specs.Prelude.{◌≡◌, ◌+◌, ◌≤◌, ◌<◌, ℕ, true, length, vec_len, IfOk, IfErr, OnOk};
ghost use Rattle.model.specs.Transactions.{Language};
ghost use Rattle.keep.specs.Durable.{Durable};
ghost use Rattle.raft.specs.Start.{IsStart};
ghost use Rattle.raft.specs.Reading.{IsRead};
ghost use Rattle.raft.specs.View.{IsInStep, IsStateOf};
ghost use Rattle.node.specs.View.{IsCauseOrBad};

use keep::error::StoreError;
use keep::keeper::{Keeper, LogReader};
use keep::state::State;
use model::entry::Entry;
use raft::is_start;
use raft::state::Core;
use std::alloc::Global;

/// The hard state and the end of the log. `StoreFault` where the store fails, `NoMemory` where memory is
/// refused, `BadStore` where they can't be those of a member of a group of so many: then
/// the store is not honest, as what a keeper opened does.
pub(crate) fn read_state<K: Keeper>(
    alloc: Global,
    keeper: &mut K,
    members: usize,
) -> Result<State, StoreError>
    requires up { K.is_up keeper.old ≡ true }
    ensures ok { IfOk result (λ s. K.is_honest keeper.new → IsStateOf s (K.stored keeper.new)) }
    ensures same { K.is_honest keeper.new → K.stored keeper.new ≡ K.stored keeper.old }
    ensures saves { K.saves keeper.new ≡ K.saves keeper.old }
    ensures limit { K.limit keeper.new ≡ K.limit keeper.old }
    ensures fits { IfOk result (λ s. IsStart members s) }
    ensures up { OnOk result (K.is_up keeper.new ≡ true) }
    ensures honest { K.is_honest keeper.new → K.is_honest keeper.old }
    ensures left { (d : Durable) → K.may_hold keeper.new d → K.may_hold keeper.old d }
    ensures serves { (members : ℕ) (language : Language) → K.serves keeper.old members language → K.serves keeper.new members language }
    ensures not_down { IfErr result (λ e. e ≡ StoreError.NodeDown → ⊥) }
    ensures bad { IfErr result (λ e. e ≡ StoreError.BadStore → (language : Language) → K.serves keeper.old members language → K.is_honest keeper.new → ⊥) }
{
    let state = keeper.state(alloc)?;
    if !is_start(members, &state) {
        return Err(StoreError::BadStore);
    }
    Ok(state)
}

/// The whole log, for which no more entries are asked for than the member knows of. `BadStore` where it has fewer, as may be
/// with a store that is not honest.
pub(crate) fn all_entries<S: LogReader>(
    alloc: Global,
    core: &Core,
    reader: &mut S,
) -> Result<Vec<Entry>, StoreError>
    requires up { S.is_up reader.old ≡ true }
    requires stored { S.is_honest reader.old → IsInStep core.now (S.stored reader.old) }
    ensures ok { IfOk result (λ log. S.is_honest reader.new → log.items ≡ (S.stored reader.old).log) }
    ensures reader { IsRead (S.is_honest reader.old) (S.is_honest reader.new) (S.stored reader.old) (S.stored reader.new) (S.may_hold reader.old) (S.may_hold reader.new) (S.serves reader.old) (S.serves reader.new) (S.failed reader.old) (S.failed reader.new) (S.saves reader.old) (S.saves reader.new) (S.came_from reader.old) (S.came_from reader.new) }
    ensures up { OnOk result (S.is_up reader.new ≡ true) }
    ensures not_down { IfErr result (λ e. e ≡ StoreError.NodeDown → ⊥) }
    ensures bad { IfErr result (λ e. e ≡ StoreError.BadStore → S.is_honest reader.new → ⊥) }
    ensures cause { IfErr result (IsCauseOrBad (S.is_honest reader.new) (S.failed reader.old) (S.failed reader.new)) }
    ensures asks { S.asks reader.new ≤ S.asks reader.old + (core.now.log.elsewhere + vec_len core.now.log.tail) }
{
    let mut log = Vec::new(alloc);
    for before in 0..core.length() {
        let Some(entry) = core.entry(reader, before + 1)? else {
            return Err(StoreError::BadStore);
        };
        log.push(entry)?;
    }
    Ok(log)
}
