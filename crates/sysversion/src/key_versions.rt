//! The versions of one key, and how those near a day are found.
use crate::reached::{ReachedPlaces, places_near, reach_of};
use crate::version::Version;
use crate::version_list::VersionList;
use current::Row;
use model::stamp::Stamp;
use overlaps::counted::{Count, Counted};
use period::Day;
use std::alloc::{AllocError, Global};
use std::collections::BTreeSet;
use std::marker::Model;

/// The versions of a key in the order in which they came, and where they stand by the days that their periods have. A
/// contract sees the versions.
#[derive(Debug, Drop)]
pub struct KeyVersions {
    list: VersionList,
    reached: ReachedPlaces,
}

impl Model for KeyVersions {
    ghost use Rattle.std.specs.Prelude.{List, map};
    ghost use Rattle.sysversion.specs.declared.version.Version.{Version as Stored};
    ghost use Rattle.sysversion.specs.Lists.{version_of};
    ghost use Rattle.sysversion.specs.Days.{AreReached};

    ghost Value = { List Stored };

    ghost view = { λ k. k.list };

    ghost invariant = { λ k. AreReached k.reached (map version_of k.list) };
}

impl KeyVersions {
    ghost use Rattle.std.specs.Prelude.{◌≡◌, ◌≤◌, ◌+◌, ◌++◌, ◌∷◌, [], map, filter, length, OnOk, OnErr, IfOk};
    ghost use Rattle.current.specs.Rows.{row_of};
    ghost use Rattle.versionlaws.specs.Committing.{opened};
    ghost use Rattle.sysversion.specs.Days.{has_day, nearly_has};
    ghost use Rattle.sysversion.specs.Lists.{version_of};
    ghost use Rattle.sysversion.specs.Open.{ended_from, open_from};

    /// No versions. Takes no memory.
    pub(crate) fn new(alloc: Global) -> KeyVersions
        ensures { result ≡ [] }
    {
        KeyVersions {
            list: VersionList::new(alloc),
            reached: BTreeSet::new(alloc),
        }
    }

    /// The versions, in the order in which they came. Takes no memory.
    pub fn versions(&self) -> &Counted<Version>
        ensures { result.now ≡ self.now }
    {
        self.list.versions()
    }

    /// Adds an open version of a row. Want of memory changes nothing.
    pub(crate) fn open(&mut self, row: Row) -> Result<(), AllocError>
        ensures ok { OnOk result (map version_of self.new ≡ map version_of self.old ++ opened (row_of row) ∷ []) }
        ensures err { OnErr result (self.new ≡ self.old) }
    {
        let start = row.period.start.number;
        let reached = (reach_of(row.period), (start, self.list.versions().len()));
        self.reached.insert(reached)?;
        let opened = self.list.open(row);
        if opened.is_err() {
            self.reached.remove(&reached);
        }
        opened
    }

    /// Ends the open versions that start on a day. They are looked up by the day, and the count rises by one for each of
    /// them: no other version is read. Takes no memory.
    pub(crate) fn end_from(&mut self, start: Day, t: Stamp, count: &mut Count)
        ensures ended { map version_of self.new ≡ map (ended_from t start.number) (map version_of self.old) }
        ensures few { count.new ≤ count.old + length (open_from start.number (map version_of self.old)) }
    {
        self.list.end_from(start, t, count);
    }

    /// Each version whose period has the day, in the order in which they came, and maybe others among them. The count
    /// rises by at most the number of versions whose periods have the day, or would have it if they went on for as many
    /// days again, and no more versions are given than it then tells. Refused for want of memory alone.
    pub fn near(
        &self,
        alloc: Global,
        day: Day,
        count: &mut Count,
    ) -> Result<Vec<&Version>, AllocError>
        ensures each { IfOk result (λ found. filter (has_day day.number) (map (λ v. version_of v.now) found.items) ≡ filter (has_day day.number) (map version_of self.now)) }
        ensures few { count.new ≤ count.old + length (filter (nearly_has day.number) (map version_of self.now)) }
        ensures counted { IfOk result (λ found. length found.items ≤ count.new) }
    {
        let places = places_near(alloc, &self.reached, day.number)?;
        let versions = self.list.versions();
        let mut found = Vec::new(alloc);
        for place in &places {
            found.push(versions.at(*place, count))?;
        }
        Ok(found)
    }
}
