//! What is found, one by one.
ghost use Rattle.std.specs.Prelude.{◌≡◌, ◌++◌, option_to_list, OnOk};

use std::alloc::AllocError;

/// Puts what was found, if anything, behind what was found before.
pub(crate) fn keep<T: Drop>(all: &mut Vec<T>, found: Option<T>) -> Result<(), AllocError>
    ensures { OnOk result (all.new.items ≡ all.old.items ++ option_to_list found) }
{
    if let Some(one) = found {
        all.push(one)?;
    }
    Ok(())
}
