//! Closed times, compared.
ghost use Rattle.std.specs.Prelude.{◌≡◌, ◌≢◌, MatchBool};
ghost use Rattle.model.specs.Stamps.{greater};
ghost use Rattle.node.specs.View.{risen};

use model::stamp::Stamp;

/// Whether less is closed than was shown as closed.
#[tactic(auto, using(crate::proofs::Levels::is_above, crate::proofs::Levels::is_level))]
pub(crate) fn is_below(closed: &Option<Stamp>, shown: &Option<Stamp>) -> bool
    ensures { MatchBool result (greater shown.now closed.now ≢ closed.now) (greater shown.now closed.now ≡ closed.now) }
{
    match (shown, closed) {
        (None, _) => false,
        (Some(_), None) => true,
        (Some(shown), Some(closed)) => {
            if closed.micros() < shown.micros() {
                true
            } else {
                false
            }
        }
    }
}

/// What is closed, where that is above what was shown as closed; else none.
pub(crate) fn risen(shown: Option<Stamp>, closed: Option<Stamp>) -> Option<Stamp>
    ensures { result ≡ risen shown closed }
{
    match (shown, closed) {
        (Some(shown), Some(closed)) if closed.micros() <= shown.micros() => None,
        (_, closed) => closed,
    }
}
