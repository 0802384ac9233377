//! The versions of one key, and where the open ones stand.
ghost use Rattle.std.specs.Prelude.{◌≡◌, ◌<◌, ◌≤◌, ◌+◌, ℕ, false, map, length, IsTrue, IfSome, IfNone};
ghost use Rattle.std.specs.BTreeSet.{contains};
ghost use Rattle.sysversion.specs.Lists.{version_of};
ghost use Rattle.sysversion.specs.Open.{ended_from, open_from, place_cmp, AreIndexed};

use crate::version::Version;
use current::Row;
use model::stamp::Stamp;
use overlaps::counted::{Count, Counted};
use period::Day;
use std::alloc::{AllocError, Global};
use std::collections::BTreeSet;
use std::marker::Model;

// The start of each open version's period, and its place among the versions.
type OpenPlaces = BTreeSet<(u32, usize)>;

/// The versions of a key in the order in which they came, and where the open ones stand, by their starts. A contract
/// sees the versions.
#[derive(Debug, Drop)]
pub(crate) struct VersionList {
    versions: Counted<Version>,
    open_places: OpenPlaces,
}

impl Model for VersionList {
    ghost use Rattle.std.specs.Prelude.{List, map};
    ghost use Rattle.sysversion.specs.declared.version.Version.{Version as Stored};
    ghost use Rattle.sysversion.specs.Lists.{version_of};
    ghost use Rattle.sysversion.specs.Open.{AreIndexed};

    ghost Value = { List Stored };

    ghost view = { λ k. k.versions };

    ghost invariant = { λ k. AreIndexed k.open_places (map version_of k.versions) };
}

// The place of the first open version that starts on the day. It is looked up, with no walk over the others.
fn first_from(open_places: &OpenPlaces, start: u32) -> Option<usize>
    ensures some { IfSome result (λ place. IsTrue (contains place_cmp open_places.now (start, place))) }
    ensures none { IfNone result ((place : ℕ) → contains place_cmp open_places.now (start, place) ≡ false) }
{
    match open_places.range((start, 0)..).next() {
        Some((found, place)) if *found == start => Some(*place),
        _ => None,
    }
}

// Ends the open versions that start on the day, and reads no others.
fn end_open(
    versions: &mut Counted<Version>,
    open_places: &mut OpenPlaces,
    start: u32,
    t: Stamp,
    count: &mut Count,
)
    requires { AreIndexed open_places.old (map version_of versions.old) }
    ensures ended { map version_of versions.new ≡ map (ended_from t start) (map version_of versions.old) }
    ensures indexed { AreIndexed open_places.new (map version_of versions.new) }
    ensures few { count.new ≤ count.old + length (open_from start (map version_of versions.old)) }
{
    while let Some(place) = first_from(open_places, start) {
        open_places.remove(&(start, place));
        versions.at_mut(place, count).end_at(t);
    }
}

impl VersionList {
    ghost use Rattle.std.specs.Prelude.{◌≡◌, ◌≤◌, ◌+◌, ◌++◌, ◌∷◌, [], map, length, OnOk, OnErr};
    ghost use Rattle.current.specs.Rows.{row_of};
    ghost use Rattle.versionlaws.specs.Committing.{opened};
    ghost use Rattle.sysversion.specs.Lists.{version_of};
    ghost use Rattle.sysversion.specs.Open.{ended_from, open_from};

    /// No versions. Takes no memory.
    pub(crate) fn new(alloc: Global) -> VersionList
        ensures { result ≡ [] }
    {
        VersionList {
            versions: Counted::new(alloc),
            open_places: BTreeSet::new(alloc),
        }
    }

    /// The versions, in the order in which they came. Takes no memory.
    pub(crate) fn versions(&self) -> &Counted<Version>
        ensures { result.now ≡ self.now }
    {
        &self.versions
    }

    /// Adds an open version of a row. Want of memory changes nothing.
    pub(crate) fn open(&mut self, row: Row) -> Result<(), AllocError>
        ensures ok { OnOk result (map version_of self.new ≡ map version_of self.old ++ opened (row_of row) ∷ []) }
        ensures err { OnErr result (self.new ≡ self.old) }
    {
        let place = (row.period.start.number, self.versions.len());
        self.open_places.insert(place)?;
        let pushed = self.versions.push(Version { row, end: None });
        if pushed.is_err() {
            self.open_places.remove(&place);
        }
        pushed
    }

    /// Ends the open versions that start on a day. They are looked up by the day, and the count rises by one for each of
    /// them: no other version is read. Takes no memory.
    pub(crate) fn end_from(&mut self, start: Day, t: Stamp, count: &mut Count)
        ensures ended { map version_of self.new ≡ map (ended_from t start.number) (map version_of self.old) }
        ensures few { count.new ≤ count.old + length (open_from start.number (map version_of self.old)) }
    {
        end_open(
            &mut self.versions,
            &mut self.open_places,
            start.number,
            t,
            count,
        );
    }
}
