//! System times.
ghost use Rattle.std.specs.Prelude.{◌≡◌, ◌≤◌};

use model::stamp::Stamp;

/// Which instants a query asks about: all from the first to the last.
#[derive(Clone, Copy, Debug, PartialEq, Eq)]
pub struct SystemTime {
    pub first: Stamp,
    pub last: Stamp,
    pub ghost ordered: { first ≤ last },
}

impl SystemTime {
    /// This instant alone.
    pub fn as_of(at: Stamp) -> SystemTime
        ensures first { result.first ≡ at }
        ensures last { result.last ≡ at }
    {
        SystemTime {
            first: at,
            last: at,
        }
    }
}
