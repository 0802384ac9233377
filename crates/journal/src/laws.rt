//! Laws of journals: what these functions are for is their contracts.
ghost use Rattle.std.specs.Prelude.{◌≡◌, ◌<◌, length, All, IfOk, IfErr};
ghost use Rattle.fault.specs.declared.refusal.Refusal.TheVariants.{NoMemory};
ghost use Rattle.journal.specs.Blocks.{TornIsNone, EndsOnce};
ghost use Rattle.journal.specs.Ranges.{IsLine};

use crate::blocks::{block_after, put_block};
use crate::line::Line;
use crate::reading::read_lines;
use crate::writing::put_lines;
use fault::Refusal;
use std::alloc::Global;

/// A block of which the end is missing is none, and whole blocks end in one place: so what `whole_blocks` leaves of a journal whose last
/// write was torn is what there is of that write. It does nothing.
pub fn torn_ends()
    ensures torn { TornIsNone }
    ensures once { EndsOnce }
{}

/// Lines that are written as a block, which is then read, come back as they were. The error is want of memory.
pub fn lines_again(alloc: Global, before: u64, lines: &[Line]) -> Result<Vec<Line>, Refusal>
    requires some { 0 < length lines.now }
    requires range { All IsLine lines.now }
    ensures ok { IfOk result (λ again. again.items ≡ lines.now) }
    ensures err { IfErr result (λ r. r ≡ NoMemory) }
{
    let mut body = String::new(alloc);
    put_lines(alloc, lines, &mut body)?;
    let mut text = String::new(alloc);
    let _ = put_block(before, body.as_str(), &mut text)?;
    let Some(block) = block_after(before, text.as_str()) else {
        return Err(Refusal::BadFlight);
    };
    let again = read_lines(alloc, block.body)?;
    Ok(again)
}
