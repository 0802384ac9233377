//! The databases of the nodes of one run, in memory.
ghost use Rattle.std.specs.Prelude.{◌≡◌, IfOk, vec_len};

use sqlite::{Connection, MemStore};
use std::alloc::{AllocError, Global};

/// A database in memory for each of so many nodes. The error is want of memory.
pub fn databases_in_memory(
    alloc: Global,
    nodes: u8,
) -> Result<Vec<Connection<MemStore>>, AllocError>
    ensures { IfOk result (λ images. vec_len images ≡ nodes) }
{
    let mut images = Vec::new(alloc);
    for at in 0..nodes {
        let _ = at;
        images.push(Connection::open_in_memory(alloc)?)?;
    }
    Ok(images)
}
