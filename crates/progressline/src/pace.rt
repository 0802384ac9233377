//! When a line is drawn, and how fast a work goes.
ghost use Rattle.std.specs.Prelude.{◌≡◌, ◌≤◌, ◌<◌, ◌*◌, ◌/◌, ◌^◌, IsTrue, ◌↔◌};
ghost use Rattle.progressline.specs.Shown.{IsDue};

// How many milliseconds a work takes before anything is shown of it.
const PATIENCE: u64 = 500;

// For how many milliseconds a line stays at least.
const STAY: u64 = 100;

/// Whether a line is to be drawn so many milliseconds after the work began and, if one was drawn, after that.
pub(crate) fn is_due(since_begun: u64, since_drawn: Option<u64>) -> bool
    ensures { IsTrue result ↔ IsDue since_begun since_drawn }
{
    match since_drawn {
        None => since_begun >= PATIENCE,
        Some(since_drawn) => since_begun >= PATIENCE && since_drawn >= STAY,
    }
}

/// How many things are done in a second, where so many are in so many milliseconds.
pub(crate) fn rate_of(done: usize, millis: u64) -> u64
    requires { 1 ≤ millis }
    ensures { done * 1000 < 2 ^ 64 → result ≡ done * 1000 / millis }
{
    (done as u64).saturating_mul(1000) / millis
}
