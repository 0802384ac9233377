//! Which journals a folder has.
ghost use Rattle.std.specs.Prelude.{◌≡◌, ◌≢◌, ◌≤◌, ◌<◌, ◌↔◌, ◌⊎◌, ◌+◌, ◌-◌, [], Some, Ok, IsTrue, ℕ, IfOk, IfErr, Contains, slice_get};
ghost use Rattle.std.specs.List.{All};
ghost use Rattle.std.specs.List.Sorted.{IsNonDecreasing};

use crate::faults::file_refusal;
use std::alloc::Global;
use std::{fs, io};
use store::StoreRefusal;

/// The numbers of journals, each one more than that before: from the first to the last; none where the last is below the first.
#[derive(Clone, Copy, PartialEq, Eq, Debug)]
pub struct Journals {
    pub first: u64,
    pub last: u64,
}

impl Journals {
    /// How many there are.
    pub fn count(&self) -> u64
        ensures none { self.now.last < self.now.first → result ≡ 0 }
        ensures some { 0 < self.now.first → self.now.first ≤ self.now.last → result + self.now.first ≡ self.now.last + 1 }
    {
        if self.last < self.first {
            0
        } else {
            (self.last - self.first).saturating_add(1)
        }
    }

    /// Whether this one is there.
    pub fn has(&self, journal: u64) -> bool
        ensures { IsTrue result ↔ ((self.now.first ≤ journal) × (journal ≤ self.now.last)) }
    {
        self.first <= journal && journal <= self.last
    }

    /// Whether those before the first one are away.
    pub fn is_later(&self) -> bool
        ensures { IsTrue result ↔ 1 < self.now.first }
    {
        self.first > 1
    }

    /// The refusal of the journal before the first one, which is away: 55.
    pub fn refusal_before(&self) -> StoreRefusal
        ensures { result ≡ StoreRefusal.BadJournal (self.now.first - 1) 0 }
    {
        StoreRefusal::BadJournal {
            journal: self.first.saturating_sub(1),
            at: 0,
        }
    }
}

// The number of a journal, by the name of its file; none of another file.
fn number_of(name: &str) -> Option<u64> {
    let digits = name.strip_prefix("journal")?;
    match digits.as_bytes().first() {
        Some(b'1'..=b'9') => digits.parse::<u64>().ok(),
        _ => None,
    }
}

// The numbers of the journals in a folder, in no order.
fn numbers_in(rt: &HostRuntime, alloc: Global, dir: &str) -> io::Result<Vec<u64>> {
    let mut numbers = Vec::new(alloc);
    for entry in fs::read_dir(rt, dir)? {
        match entry {
            Ok(entry) => {
                if let Some(number) = number_of(entry.file_name()) {
                    numbers.push(number)?;
                }
            }
            // A name that is no text is that of another file.
            Err(error) if error.kind() == io::ErrorKind::InvalidFilename => {}
            Err(error) => return Err(error),
        }
    }
    Ok(numbers)
}

// Journals with this number more, which is no less than the first. The error is the one that is missing before it.
fn extended(journals: Journals, number: u64) -> Result<Journals, u64>
    ensures first { IfOk result (λ j. j.first ≡ journals.first) }
    ensures last { IfOk result (λ j. ((j.last ≡ journals.last) × (number ≤ j.last)) ⊎ ((j.last ≡ number) × (number ≡ journals.last + 1))) }
    ensures missing { IfErr result (λ missing. (missing ≡ journals.last + 1) × (missing < number)) }
{
    let Journals { first, last } = journals;
    if number <= last {
        return Ok(journals);
    }
    if number - last > 1 {
        return Err(last.saturating_add(1));
    }
    Ok(Journals {
        first,
        last: number,
    })
}

// Journals of these numbers, which rise. The error is the first one that is missing before a later one.
fn follow(numbers: &[u64]) -> Result<Journals, u64>
    ensures none { numbers.now ≡ [] → result ≡ Ok (record { first = 1; last = 0 }) }
    ensures first { IfOk result (λ j. numbers.now ≢ [] → slice_get numbers.now 0 ≡ Some j.first) }
    ensures there { IfOk result (λ j. (n : ℕ) → j.first ≤ n → n ≤ j.last → Contains numbers.now n) }
    ensures all { IfOk result (λ j. All (λ n. n ≤ j.last) numbers.now) }
    ensures gap { IfErr result (λ missing. IsNonDecreasing numbers.now → Contains numbers.now missing → ⊥) }
    ensures missing { IfErr result (λ missing. (0 < missing) × Contains numbers.now (missing - 1) × ((n : ℕ) × Contains numbers.now n × (missing < n))) }
{
    let Some(first) = numbers.first() else {
        return Ok(Journals { first: 1, last: 0 });
    };
    let mut journals = Journals {
        first: *first,
        last: *first,
    };
    for number in numbers {
        journals = extended(journals, *number)?;
    }
    Ok(journals)
}

/// The journals in a folder. The first ones may be away; 55 of one that is missing between others.
pub fn find_journals(rt: &HostRuntime, alloc: Global, dir: &str) -> Result<Journals, StoreRefusal> {
    let mut numbers = match numbers_in(rt, alloc, dir) {
        Ok(numbers) => numbers,
        Err(error) => return Err(file_refusal(&error)),
    };
    numbers.sort_unstable();
    match follow(numbers.as_slice()) {
        Ok(journals) => Ok(journals),
        Err(journal) => Err(StoreRefusal::BadJournal { journal, at: 0 }),
    }
}
