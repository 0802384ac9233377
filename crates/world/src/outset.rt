//! The start of a group.
ghost use Rattle.std.specs.Prelude.{◌≡◌, ◌≤◌, None, IfOk};
ghost use Rattle.model.specs.Worlds.{fresh, new_world};
ghost use Rattle.world.specs.View.{node_in, world_of, IsGroup, IsSeat};

use crate::group::Group;
use crate::seat::Seat;
use keep::memory::MemImage;
use model::member::Member;
use node::node::Node;
use schema::Schema;
use std::alloc::{AllocError, Global};

/// A member that has seen nothing: a follower in term 0 with no vote, no floor and an empty log.
fn start_member(
    alloc: Global,
    schema: Schema,
    members: usize,
    me: Member,
) -> Result<Seat, AllocError>
    requires few { members ≤ 7 }
    requires first { 1 ≤ me }
    requires last { me ≤ members }
    ensures node { IfOk result (λ s. node_in s ≡ fresh 0 None) }
    ensures seat { IfOk result (IsSeat schema members me) }
{
    match Node::start_again(alloc, MemImage::new(alloc), schema, members, me, None) {
        Ok(node) => Ok(Seat::Up(node)),
        Err(_) => Err(AllocError),
    }
}

/// All members up, in term 0, with no vote, no floor and empty logs.
pub(crate) fn open_group(alloc: Global, members: usize, schema: Schema) -> Result<Group, AllocError>
    requires { members ≤ 7 }
    ensures group { IfOk result (λ g. IsGroup g.schema g.members g.seats.items) }
    ensures world { IfOk result (λ g. world_of g ≡ new_world members) }
    ensures members { IfOk result (λ g. g.members ≡ members) }
    ensures schema { IfOk result (λ g. g.schema ≡ schema) }
{
    let mut seats = Vec::new(alloc);
    for index in 0..members {
        let own = schema.clone()?;
        seats.push(start_member(alloc, own, members, index + 1)?)?;
    }
    Ok(Group {
        alloc,
        schema,
        members,
        seats,
        sent: Vec::new(alloc),
    })
}
