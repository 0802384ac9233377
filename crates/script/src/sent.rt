//! A message that was sent.
use model::member::Member;

// To whom a message was sent, and what became of it.
#[derive(Clone, Copy)]
pub(crate) struct Sent {
    pub(crate) addressee: Member,
    pub(crate) is_delivered: bool,
    pub(crate) is_lost: bool,
}
