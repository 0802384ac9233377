//! The questions whose answers an export prints.
ghost use Rattle.std.specs.Prelude.{◌≡◌, IfOk, string_bytes};
ghost use Rattle.transfer.specs.Questions.{ever_text, now_text, then_text};

use period::Instant;
use schema::Name;
use std::alloc::{AllocError, Global};

/// What is believed now.
pub(crate) fn now_text(alloc: Global, table: &Name) -> Result<String, AllocError>
    ensures { IfOk result (λ text. string_bytes text ≡ now_text table.now) }
{
    format!(in alloc; "SELECT * FROM {table};")
}

/// What was believed at an instant.
pub(crate) fn then_text(alloc: Global, table: &Name, instant: Instant) -> Result<String, AllocError>
    ensures { IfOk result (λ text. string_bytes text ≡ then_text table.now instant.microseconds) }
{
    format!(in alloc; "SELECT * FROM {table} FOR SYSTEM_TIME AS OF TIMESTAMP '{instant}';")
}

/// All that was believed up to an instant.
pub(crate) fn ever_text(alloc: Global, table: &Name, instant: Instant) -> Result<String, AllocError>
    ensures { IfOk result (λ text. string_bytes text ≡ ever_text table.now instant.microseconds) }
{
    format!(in alloc;
        "SELECT * FROM {table} FOR SYSTEM_TIME BETWEEN TIMESTAMP '1970-01-01 00:00:00.000000' AND TIMESTAMP '{instant}';"
    )
}
