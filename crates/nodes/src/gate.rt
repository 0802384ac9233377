//! Where the threads of a cluster may be held.
use model::member::Member;

/// Where a node's thread stands.
#[derive(Clone, Copy, PartialEq, Eq, Debug)]
pub enum Point {
    /// Right before a feed.
    Before,
    /// Right after it.
    After,
}

/// What each node's thread passes right before and right after each feed. It may hold the thread for a while.
pub trait Gate {
    fn pass(&self, node: Member, point: Point);
}
