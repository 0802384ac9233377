//! All journals of a store, one after the other.
ghost use Rattle.std.specs.Prelude.{◌≡◌, ◌⊎◌, ◌↔◌, option_map, IfOk, IsTrue, OnErr, OnOk};
ghost use Rattle.store.specs.Telling.{IsTold};
ghost use Rattle.store.specs.declared.telling.End.{End as TheEnd};
ghost use Rattle.storefolder.specs.Ending.{IsTornAt, IsWholeAt};
ghost use Rattle.storefolder.specs.Hearing.{HasHeard};

use crate::form::Form;
use crate::numbers::Journals;
use crate::place::read_journal;
use crate::torn::is_torn;
use journal::blocks::{first_block, text_in};
use progressline::Progress;
use std::alloc::{AllocError, Global};
use store::StoreRefusal;
use store::past::{End, Hears, tell_journal};

// Whether a journal ends where its whole blocks do, of which it has one.
fn is_whole_at(bytes: &[u8], end: Option<End>) -> bool
    ensures { IsTrue result ↔ IsWholeAt bytes.now end }
{
    match end {
        Some(end) => end.at == bytes.len(),
        None => false,
    }
}

// Whether what stands behind its whole blocks may be left of a write that was cut short.
fn is_torn_at(bytes: &[u8], end: Option<End>) -> bool
    ensures { IsTrue result ↔ IsTornAt bytes.now end }
{
    match end {
        Some(end) => is_torn(bytes, end.at),
        None => is_torn(bytes, 0),
    }
}

// The sum that the next journal goes on from; none where the last one has no block. 55 where one that is not the last has no block, or more
// bytes behind its last one, and where the last one has others there than a write leaves that was cut short.
fn sum_at_end(
    journal: u64,
    last: u64,
    bytes: &[u8],
    end: Option<End>,
) -> Result<Option<u64>, StoreRefusal>
    ensures sum { IfOk result (λ sum. sum ≡ option_map (λ (e : TheEnd). e.sum) end) }
    ensures ends { OnOk result (IsWholeAt bytes.now end ⊎ ((journal ≡ last) × IsTornAt bytes.now end)) }
    ensures refused { OnErr result ((IsWholeAt bytes.now end → ⊥) × ((journal ≡ last) → IsTornAt bytes.now end → ⊥)) }
{
    if is_whole_at(bytes, end) {
        return Ok(end.map(|end| end.sum));
    }
    if journal == last && is_torn_at(bytes, end) {
        return Ok(end.map(|end| end.sum));
    }
    let at = match end {
        Some(end) => end.at,
        None => 0,
    };
    Err(StoreRefusal::BadJournal { journal, at })
}

// Whether the first line of a journal names this number; so does one without a whole block.
fn is_numbered(alloc: Global, journal: u64, text: &str) -> Result<bool, AllocError> {
    let Some(first) = first_block(text) else {
        return Ok(true);
    };
    let line = format!(in alloc; "opens {journal} ")?;
    Ok(first.body.starts_with(line.as_str()))
}

/// Tells each line of a journal's whole blocks, which go on from this sum, as `tell_journal` does. Where none is given 55 also of one whose
/// first line names another number.
pub(crate) fn tell_one<H: Hears>(
    alloc: Global,
    journal: u64,
    text: &str,
    before: Option<u64>,
    hearer: &mut H,
) -> Result<Option<End>, StoreRefusal>
    ensures { IfOk result (IsTold H.hears before text.now hearer.old hearer.new) }
{
    if before.is_none() && !is_numbered(alloc, journal, text)? {
        return Err(StoreRefusal::BadJournal { journal, at: 0 });
    }
    tell_journal(alloc, journal, text, before, hearer)
}

/// Tells each line of the journals of the store in a folder, and gives how many of these there are. 55 of a journal that spells nothing
/// somewhere, or lines that may not stand there, and of the one before the first where the last one that is there can't be read without it;
/// what the hearer refuses otherwise; 40 and 43 where one can't be read. How many journals were told is told to who asks for it, and is
/// taken away at the end.
pub fn tell_all<H: Hears, Q: Progress>(
    rt: &HostRuntime,
    alloc: Global,
    dir: &str,
    form: &Form,
    journals: Journals,
    hearer: &mut H,
    progress: &Q,
) -> Result<u64, StoreRefusal>
    ensures { IfOk result (λ count. HasHeard H.hears count hearer.old hearer.new) }
{
    let count = usize::try_from(journals.count()).unwrap_or(usize::MAX);
    progress.begin("journals", count);
    let told = tell_each(rt, alloc, dir, form, journals, hearer, progress);
    progress.hide();
    told
}

// The same.
fn tell_each<H: Hears, Q: Progress>(
    rt: &HostRuntime,
    alloc: Global,
    dir: &str,
    form: &Form,
    journals: Journals,
    hearer: &mut H,
    progress: &Q,
) -> Result<u64, StoreRefusal>
    ensures { IfOk result (λ count. HasHeard H.hears count hearer.old hearer.new) }
{
    let count = journals.count();
    let mut sum = if journals.is_later() {
        None
    } else {
        Some(form.sum())
    };
    for before in 0..count {
        let journal = journals.first.saturating_add(before);
        let bytes = read_journal(rt, alloc, dir, journal)?;
        let end = tell_one(alloc, journal, text_in(&bytes), sum, hearer)?;
        sum = sum_at_end(journal, journals.last, &bytes, end)?.or(sum);
        progress.tell(usize::try_from(before.saturating_add(1)).unwrap_or(usize::MAX));
    }
    match sum {
        Some(_) => Ok(count),
        None => Err(journals.refusal_before()),
    }
}
