//! Wrong bodies that no contract here lets through: functions that do nothing but call what they speak of.
ghost use Rattle.std.specs.Prelude.{◌≡◌, ◌≢◌, ℕ, List, None, length};
ghost use Rattle.flight.specs.Ranges.{IsNumber};
ghost use Rattle.journal.specs.Blocks.{IsBody, block_text, framed_text, sum_after};

use crate::blocks::{Block, End, block_after, whole_blocks};

/// A function that takes a block with another sum than that of its lines does not meet the contract of `block_after`.
fn takes_another_sum(before: u64, text: &str) -> Option<Block<'_>>
    ghost block: { ℕ × List ℕ × List ℕ }
    requires sum { IsNumber block.0 }
    requires fits { IsNumber (length block.1) }
    requires framed { text.now ≡ framed_text block.0 block.1 block.2 }
    requires other { block.0 ≢ sum_after before block.1 }
    ensures { result ≡ None }
{
    block_after(before, text)
}

/// A function that stops before a block does not meet the contract of `whole_blocks`.
fn stops_before_a_block(before: u64, text: &str) -> End<'_>
    ghost block: { List ℕ × List ℕ }
    requires body { IsBody block.0 }
    requires begins { text.now ≡ block_text before block.0 block.1 }
    ensures { result.sum ≡ before → result.rest.now ≢ text.now }
{
    whole_blocks(before, text)
}
