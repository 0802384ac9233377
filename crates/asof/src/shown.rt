//! Versions as an answer shows them.
ghost use Rattle.std.specs.Prelude.{◌≡◌, map, IfOk};
ghost use Rattle.answer.specs.Answers.{shown_of};
ghost use Rattle.versionlaws.specs.Answering.{shown_end};
ghost use Rattle.sysversion.specs.Lists.{version_of};
ghost use Rattle.asof.specs.Asking.{show_by};

use answer::Shown;
use model::stamp::Stamp;
use std::alloc::{AllocError, Global};
use sysversion::Version;

// The end, where it is at or before the last instant.
pub(crate) fn shown_end(last: Stamp, end: Option<Stamp>) -> Option<Stamp>
    ensures { result ≡ shown_end last end }
{
    match end {
        Some(end) if end.micros() <= last.micros() => Some(end),
        _ => None,
    }
}

// The version as an answer up to the last instant shows it.
fn show(alloc: Global, version: &Version, last: Stamp) -> Result<Shown, AllocError>
    ensures { IfOk result (λ shown. shown_of shown ≡ show_by last (version_of version.now)) }
{
    let row = &version.row;
    Ok(Shown {
        key: row.key.as_slice().to_vec(alloc)?,
        values: row.values.as_slice().to_vec(alloc)?,
        period: row.period,
        system_start: row.system_start,
        end: shown_end(last, version.end),
    })
}

/// The versions, in their order, as an answer up to the last instant shows them.
pub(crate) fn show_all(
    alloc: Global,
    versions: &[&Version],
    last: Stamp,
) -> Result<Vec<Shown>, AllocError>
    ensures { IfOk result (λ shown. map shown_of shown.items ≡ map (show_by last) (map (λ v. version_of v.now) versions.now)) }
{
    let mut shown = Vec::new(alloc);
    for version in versions {
        shown.push(show(alloc, version, last)?)?;
    }
    Ok(shown)
}
