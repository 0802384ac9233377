//! How the file of a new database begins.
ghost use Rattle.std.specs.Prelude.{◌≡◌, ◌++◌, IfOk, replicate};
ghost use Rattle.durable.specs.declared.new_file.TheConstants.{HEAD};

use std::alloc::{AllocError, Global};

// How many bytes a page has. A save writes whole pages, so it costs less with small ones.
const PAGE: usize = 1_024;

// "The Database Header" of SQLite's "Database File Format", and behind it the head of a leaf without cells: pages of 1,024 bytes, of which
// there is one; a write-ahead log; texts in UTF-8.
const HEAD: [u8; 108] = *b"SQLite format 3\0\
    \x04\x00\x02\x02\x00\x40\x20\x20\x00\x00\x00\x01\x00\x00\x00\x01\
    \x00\x00\x00\x00\x00\x00\x00\x00\x00\x00\x00\x00\x00\x00\x00\x04\
    \x00\x00\x00\x00\x00\x00\x00\x00\x00\x00\x00\x01\x00\x00\x00\x00\
    \x00\x00\x00\x00\x00\x00\x00\x00\x00\x00\x00\x00\x00\x00\x00\x00\
    \x00\x00\x00\x00\x00\x00\x00\x00\x00\x00\x00\x00\x00\x00\x00\x01\
    \x00\x2e\x76\x88\x0d\x00\x00\x00\x00\x04\x00\x00";

/// The one page of a database without tables, in pages of 1,024 bytes: what the file of a new one has. The error is want of memory.
pub fn first_page(alloc: Global) -> Result<Vec<u8>, AllocError>
    ensures { IfOk result (λ page. page.items ≡ HEAD ++ replicate 916 0) }
{
    let mut page = Vec::with_capacity(alloc, PAGE)?;
    page.extend_from_slice(&HEAD)?;
    page.resize(PAGE, 0)?;
    Ok(page)
}
