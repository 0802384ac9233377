//! Versions of rows with two system times, in place of tables at each instant: what a commit, a log
//! and a question come to on them. No function here does anything, save to call upon other laws: what
//! it is for is its contract, which a caller has as a fact. So there is no code that an edit could
//! turn wrong.
#![tactic(auto)]

ghost use Rattle.versionlaws.specs.Versions.{NoVersions, HeldBefore, HeldOn, HeldKept};
ghost use Rattle.versionlaws.specs.ByKey.{HeldByKey, FewVersions};
ghost use Rattle.versionlaws.specs.Committing.{Commit, CommitEntry, EntryStays, Lasts, KeptLater, HoldsAfter, KeepsAfter};
ghost use Rattle.versionlaws.specs.Answering.{VersionsRows, VersionsEnds, VersionsGive, VersionsAnswer, SomeAnswer, ClosedAnswer, SealedAnswer};
ghost use Rattle.versionlaws.specs.Unanswered.{NoAnswer};
ghost use Rattle.versionlaws.specs.WorkedRows.{DeletedVersion, CutVersion, MovedVersions};

/// Before the first instant no versions are held, whatever comes.
pub fn no_versions()
    ensures { NoVersions }
{}

/// The current rows are born before the bound.
pub fn held_before()
    ensures { HeldBefore }
{}

/// Where the current rows stay, the same versions hold on.
pub fn held_on()
    ensures { HeldOn }
{}

/// What is held is kept up to each instant until which the current rows stay.
pub fn held_kept()
    ensures { HeldKept }
{}

/// What holds does so in whatever order the versions of different keys stand.
pub fn held_by_key()
    ensures { HeldByKey }
{}

/// A key has at most as many versions as different rows over all instants.
pub fn few_versions()
    ensures { FewVersions }
{}

/// A commit of what a transaction at an instant touches: versions that held what the table was before
/// hold what it is then, and was before.
pub fn commit()
    ensures { Commit }
{}

/// A commit of what one more entry of a log touches, over the log's own instants.
pub fn commit_entry()
    ensures { CommitEntry }
{
    rowlaws::logs_follow();
}

/// Where an entry of a log leaves a table as it was, the same versions hold on.
pub fn entry_stays()
    ensures { EntryStays }
{}

/// What is held of a log's table is kept up to each instant: also to one after the last stamp, since the rows stay.
pub fn kept_later()
    ensures { KeptLater }
{}

/// A row is there at each instant from its system start on, as long as it is there at all.
pub fn lasts()
    ensures { Lasts }
{
    rowlaws::logs_follow();
}

/// The versions that a log leaves hold what its tables are, instant by instant.
pub fn holds()
    ensures { HoldsAfter }
{
    rowlaws::logs_on_rows();
    rowlaws::logs_follow();
    rowlaws::touched();
}

/// The versions that a log leaves say what the rows of a table are at each instant.
pub fn keeps()
    ensures { KeepsAfter }
{
    rowlaws::logs_on_rows();
    rowlaws::logs_follow();
    rowlaws::touched();
}

/// A row is asked for exactly where a version of it is found by the query's instants.
pub fn versions_rows()
    ensures { VersionsRows }
{}

/// A version's end is the shown end of its row where it is at or before the query's last instant.
pub fn versions_ends()
    ensures { VersionsEnds }
{}

/// Of versions that keep what a table was, those that are found, by key, start and system start, are the
/// answer.
pub fn versions_give()
    ensures { VersionsGive }
{}

/// Of the versions that a log leaves, those that are found, by key, start and system start, are the answer
/// in the log.
pub fn versions_answer()
    ensures { VersionsAnswer }
{
    holds();
    keeps();
}

/// Some answer: a query has an answer in each log whose stamps rise and whose texts are well formed.
/// One that has no instant has none of the rows.
pub fn some_answer()
    ensures { SomeAnswer }
{
    versions_answer();
}

/// Closed answer: a query that is closed in a log whose texts are well formed has an answer there, and
/// it is the only answer in that log and in every longer one whose stamps rise. A query without system
/// time is read AS OF the closed time.
pub fn closed_answer()
    ensures { ClosedAnswer }
{
    safety::however_late();
    safety::one_answer();
    some_answer();
}

/// Sealed answer: so has a query that is closed at any closed time, also at one above the last stamp of the log. It is the
/// only answer in that log and in every longer one in which what comes after is stamped above that time.
pub fn sealed_answer()
    ensures { SealedAnswer }
{
    safety::however_sealed();
    safety::one_answer();
    some_answer();
}

/// No answer: where a text says what is not well formed, a query that is closed may have no answer.
pub fn no_answer()
    ensures { NoAnswer }
{}

/// Rows by computation: the versions of a row that is deleted, and of one that is cut, and what
/// they answer; how many versions a key has after a portion of its days has changed.
pub fn rows_of_versions()
    ensures deleted_version { DeletedVersion }
    ensures cut_version { CutVersion }
    ensures moved_versions { MovedVersions }
{}
