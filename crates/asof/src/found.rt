//! The versions that a question finds.
ghost use Rattle.std.specs.Prelude.{◌≡◌, ℕ, ◌≤◌, ◌+◌, ◌++◌, ◌&&◌, Some, nat_le, map, filter, length, IfOk};
ghost use Rattle.std.specs.List.{list_all};
ghost use Rattle.sqlread.specs.Shapes.{time_of, term_of};
ghost use Rattle.sqlread.specs.Meaning.{term_passes};
ghost use Rattle.current.specs.Rows.{row_of};
ghost use Rattle.rowlaws.specs.Sorting.{in_order};
ghost use Rattle.versionlaws.specs.Answering.{is_before, version_cmp};
ghost use Rattle.versionlaws.specs.ByKey.{is_of};
ghost use Rattle.sysversion.specs.Days.{nearly_has};
ghost use Rattle.sysversion.specs.Lists.{version_of};
ghost use Rattle.sysversion.specs.Versions.{versions_of, versions_of_table};
ghost use Rattle.asof.specs.Asking.{is_found_by};
ghost use Rattle.asof.specs.Named.{day_of, IsFew, IsFewOnDay};

use crate::named::{named_day, named_key};
use model::stamp::Stamp;
use overlaps::{Count, Counted, Key};
use period::Day;
use sqlread::query::SystemTime;
use sqlread::term::{Term, pass_all_terms};
use std::alloc::{AllocError, Global};
use std::cmp::Ordering;
use sysversion::{KeyVersions, TableVersions, Version, Versions};

// Whether the instant is before the end.
fn is_before(at: Stamp, end: Option<Stamp>) -> bool
    ensures { result ≡ is_before at end }
{
    match end {
        Some(end) => at.micros() < end.micros(),
        None => true,
    }
}

// Whether the version's system period has one of the instants.
fn is_alive(version: &Version, time: &SystemTime) -> bool
    ensures { result ≡ (nat_le version.now.row.system_start time.now.last && is_before time.now.first version.now.end) }
{
    version.row.system_start.micros() <= time.last.micros() && is_before(time.first, version.end)
}

// Whether the version's row passes each term.
fn passes(version: &Version, terms: &[Term]) -> bool
    ensures { result ≡ list_all (λ t. term_passes t (row_of version.now.row)) (map term_of terms.now) }
{
    let row = &version.row;
    pass_all_terms(terms, row.key.as_slice(), row.values.as_slice(), row.period)
}

// Whether the version's row passes each term, and its system period has one of the instants.
fn is_found(version: &Version, time: &SystemTime, terms: &[Term]) -> bool
    ensures { result ≡ is_found_by (time_of time.now) terms.now (version_of version.now) }
{
    is_alive(version, time) && passes(version, terms)
}

// Adds the versions of a list that are found. The count rises by at most one for each of the list.
fn add_found<'a>(
    list: &'a Counted<Version>,
    time: &SystemTime,
    terms: &[Term],
    found: &mut Vec<&'a Version>,
    count: &mut Count,
) -> Result<(), AllocError>
    ensures found { IfOk result (λ u. map (λ v. version_of v.now) found.new.items ≡ map (λ v. version_of v.now) found.old.items ++ filter (is_found_by (time_of time.now) terms.now) (map version_of list.now)) }
    ensures counted { count.new ≤ count.old + length list.now }
    ensures each { length found.old.items ≤ count.old → length found.new.items ≤ count.new }
{
    for place in 0..list.len() {
        let version = list.at(place, count);
        if is_found(version, time, terms) {
            found.push(version)?;
        }
    }
    Ok(())
}

// Those of a key that are found, where WHERE names a day: no version is tested but those near the day.
fn found_near<'a>(
    alloc: Global,
    list: &'a KeyVersions,
    day: Day,
    time: &SystemTime,
    terms: &[Term],
    count: &mut Count,
) -> Result<Vec<&'a Version>, AllocError>
    requires { day_of terms.now ≡ Some day.number }
    ensures found { IfOk result (λ found. map (λ v. version_of v.now) found.items ≡ filter (is_found_by (time_of time.now) terms.now) (map version_of list.now)) }
    ensures few { count.new ≤ count.old + length (filter (nearly_has day.number) (map version_of list.now)) }
    ensures each { IfOk result (λ found. length found.items ≤ count.new) }
{
    let near = list.near(alloc, day, count)?;
    let mut found = Vec::new(alloc);
    for version in &near {
        if is_found(version, time, terms) {
            found.push(*version)?;
        }
    }
    Ok(found)
}

// Those of a key that are found, where WHERE names no day.
fn found_of_list<'a>(
    alloc: Global,
    list: &'a KeyVersions,
    time: &SystemTime,
    terms: &[Term],
    count: &mut Count,
) -> Result<Vec<&'a Version>, AllocError>
    ensures found { IfOk result (λ found. map (λ v. version_of v.now) found.items ≡ filter (is_found_by (time_of time.now) terms.now) (map version_of list.now)) }
    ensures counted { count.new ≤ count.old + length list.now }
    ensures each { IfOk result (λ found. length found.items ≤ count.new) }
{
    let mut found = Vec::new(alloc);
    add_found(list.versions(), time, terms, &mut found, count)?;
    Ok(found)
}

// Those of a key that are found.
fn found_of_key<'a>(
    alloc: Global,
    table: &'a TableVersions,
    key: &Key,
    time: &SystemTime,
    terms: &[Term],
    count: &mut Count,
) -> Result<Vec<&'a Version>, AllocError>
    ensures found { IfOk result (λ found. map (λ v. version_of v.now) found.items ≡ filter (is_found_by (time_of time.now) terms.now) (filter (is_of key.now) (versions_of_table table.now))) }
    ensures counted { count.new ≤ count.old + length (filter (is_of key.now) (versions_of_table table.now)) }
    ensures few { (day : ℕ) → day_of terms.now ≡ Some day → count.new ≤ count.old + length (filter (nearly_has day) (filter (is_of key.now) (versions_of_table table.now))) }
    ensures each { IfOk result (λ found. length found.items ≤ count.new) }
{
    let Some(list) = table.of_key(key) else {
        return Ok(Vec::new(alloc));
    };
    match named_day(terms) {
        Some(day) => found_near(alloc, list, day, time, terms, count),
        None => found_of_list(alloc, list, time, terms, count),
    }
}

// Those of all keys that are found.
fn found_of_all<'a>(
    alloc: Global,
    table: &'a TableVersions,
    time: &SystemTime,
    terms: &[Term],
    count: &mut Count,
) -> Result<Vec<&'a Version>, AllocError>
    ensures found { IfOk result (λ found. map (λ v. version_of v.now) found.items ≡ filter (is_found_by (time_of time.now) terms.now) (versions_of_table table.now)) }
    ensures each { IfOk result (λ found. length found.items ≤ count.new) }
{
    let mut found = Vec::new(alloc);
    for (_, list) in table.lists() {
        add_found(list.versions(), time, terms, &mut found, count)?;
    }
    Ok(found)
}

// Those of a table that are found. Where WHERE names a key only its versions are looked at, and of those only the ones near
// the day where it names one.
fn found_in<'a>(
    alloc: Global,
    table: &'a TableVersions,
    time: &SystemTime,
    terms: &[Term],
    count: &mut Count,
) -> Result<Vec<&'a Version>, AllocError>
    ensures found { IfOk result (λ found. map (λ v. version_of v.now) found.items ≡ filter (is_found_by (time_of time.now) terms.now) (versions_of_table table.now)) }
    ensures few { IfOk result (λ found. count.old ≡ 0 → IsFew terms.now (versions_of_table table.now) count.new) }
    ensures few_on_day { IfOk result (λ found. count.old ≡ 0 → IsFewOnDay terms.now (versions_of_table table.now) count.new) }
    ensures each { IfOk result (λ found. length found.items ≤ count.new) }
{
    match named_key(alloc, terms, table.columns())? {
        Some(key) => found_of_key(alloc, table, &key, time, terms, count),
        None => found_of_all(alloc, table, time, terms, count),
    }
}

/// The versions of a table whose rows pass each term, and whose system periods have one of the instants, by their keys,
/// and those of a key in the order in which they came. The count, 0 before, becomes how many versions were tested: each
/// that is found, and where WHERE names a key, none but the key's; where it names a day besides, of those none but the ones
/// near the day.
pub(crate) fn found<'a>(
    alloc: Global,
    versions: &'a Versions,
    table: usize,
    time: &SystemTime,
    terms: &[Term],
    count: &mut Count,
) -> Result<Vec<&'a Version>, AllocError>
    ensures found { IfOk result (λ found. map (λ v. version_of v.now) found.items ≡ filter (is_found_by (time_of time.now) terms.now) (versions_of versions.now table)) }
    ensures few { IfOk result (λ found. count.old ≡ 0 → IsFew terms.now (versions_of versions.now table) count.new) }
    ensures few_on_day { IfOk result (λ found. count.old ≡ 0 → IsFewOnDay terms.now (versions_of versions.now table) count.new) }
    ensures each { IfOk result (λ found. length found.items ≤ count.new) }
{
    match versions.table(table) {
        Some(table) => found_in(alloc, table, time, terms, count),
        None => Ok(Vec::new(alloc)),
    }
}

// By key, start and system start.
fn compare(version: &Version, other: &Version) -> Ordering
    ensures { result ≡ version_cmp (version_of version.now) (version_of other.now) }
{
    let (row, other) = (&version.row, &other.row);
    row.key
        .cmp(&other.key)
        .then(row.period.start.number.cmp(&other.period.start.number))
        .then(row.system_start.micros().cmp(&other.system_start.micros()))
}

/// The same versions in the order of key, start and system start.
pub(crate) fn in_order(versions: Vec<&Version>) -> Result<Vec<&Version>, AllocError>
    ensures { IfOk result (λ sorted. map (λ v. version_of v.now) sorted.items ≡ in_order version_cmp (map (λ v. version_of v.now) versions.entry.items)) }
{
    rowlaws::keys_ordered();
    let mut versions = versions;
    versions.sort_by(|version, other| compare(version, other))?;
    Ok(versions)
}
