//! Versions of rows.
ghost use Rattle.std.specs.Prelude.{◌≡◌};
ghost use Rattle.current.specs.Rows.{row_of};
ghost use Rattle.sysversion.specs.Lists.{version_of};

use current::Row;
use model::stamp::Stamp;

/// A row from its system start on, up to its system end, or open. A contract sees what `version_of` gives.
#[derive(Debug, Drop)]
pub struct Version {
    pub row: Row,
    /// The instant of the transaction with which the row went, none while it is current.
    pub end: Option<Stamp>,
}

impl Version {
    /// Ends the version at an instant.
    pub(crate) fn end_at(&mut self, t: Stamp)
        ensures { version_of self.new ≡ record { row = row_of self.old.row; end = Some t } }
    {
        self.end = Some(t);
    }
}
