//! Wrong bodies that no contract here lets through: functions that do nothing but call what they speak of.
ghost use Rattle.std.specs.Prelude.{◌≡◌, ◌≢◌, ◌+◌, ◌<◌, ℕ, slice_get, OnOk};
ghost use Rattle.retry.specs.Judging.{number_of, outcomes_of, verdict_of, New};

use crate::{Judged, Outcome, Requests};
use model::request::{Client, RequestNumber};
use std::alloc::AllocError;

/// A function that executes a request again, or one after a gap, does not meet the contract of `Requests::judge`.
fn executes_another_than_the_next(
    requests: &Requests,
    client: Client,
    number: RequestNumber,
) -> Judged<'_>
    requires { number ≢ number_of requests.now client + 1 }
    ensures { verdict_of result ≢ New }
{
    requests.judge(client, number)
}

/// A function that forgets one of the latest seven outcomes does not meet the contract of `Requests::keep`.
fn forgets_one_of_seven(
    requests: &mut Requests,
    client: Client,
    number: RequestNumber,
    outcome: Outcome,
) -> Result<(), AllocError>
    requires { number ≡ number_of requests.old client + 1 }
    ensures { OnOk result ((place : ℕ) → place < 7 → slice_get (outcomes_of requests.new client) (place + 1) ≡ slice_get (outcomes_of requests.old client) place) }
{
    requests.keep(client, number, outcome)
}
