//! Copies of packets.
ghost use Rattle.std.specs.Prelude.{◌≡◌, IfOk};
ghost use Rattle.cells.specs.Lives.{work_of};

use flight::life::Packet;
use node::Work;
use std::alloc::AllocError;

/// A copy of the packet, as a member takes it.
pub(crate) fn work_of(packet: &Packet) -> Result<Work, AllocError>
    ensures { IfOk result (λ work. work ≡ work_of packet.now) }
{
    match packet {
        Packet::Local(input) => Ok(Work::Local(input.clone()?)),
        Packet::Delivered {
            reading,
            message,
            ..
        } => Ok(Work::Delivered {
            reading: *reading,
            message: message.clone()?,
        }),
    }
}
