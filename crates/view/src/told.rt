//! What a publisher tells of.
use history::Front;
use model::mark::Mark;
use model::member::Member;

/// Which life of which node.
#[derive(Clone, Copy, PartialEq, Eq, Debug)]
pub struct Name {
    pub node: Member,
    /// The mark of the life's opening.
    pub opening: Mark,
}

/// A list was published by the life of this name. It is a plain value without the list's items: callers keep it, and
/// show it to as many views as they like.
#[derive(Drop)]
pub struct Notice {
    pub(crate) name: Name,
    pub(crate) front: Front,
}
