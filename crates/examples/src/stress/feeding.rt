//! What the four threads do that feed a node under its lock.
ghost use Rattle.std.specs.Prelude.{◌≡◌, ◌<◌};

use crate::stress::mail::{Mail, Task};
use network::Inbox;
use nodes::{Fault, LockedNode, MemKeeper, Naming, Out, Packet};
use std::sync::ledger::Share;
use std::sync::{Mutex, Wait};
use std::thread::{Threads, join};

// Feeds it a packet.
fn feed<L: Naming, R: Wait>(
    rt: &R,
    node: &Mutex<LockedNode<MemKeeper, L>>,
    share: &mut Share<L>,
    reading: i64,
    packet: Packet,
) -> Result<Out, Fault>
    requires { 0 < share.old.parts }
    ensures { share.new.parts ≡ share.old.parts }
{
    node.lock(rt).feed(rt, share, reading, packet)
}

// Sends the messages of a step.
fn send_all<R: Wait>(rt: &R, mail: &Mail, out: &Out) {
    for message in &out.given.messages {
        mail.send(rt, out.mark, message);
    }
}

// Feeds it a packet, and sends what comes of it. A packet that is refused changes nothing.
fn feed_and_send<L: Naming, R: Wait>(
    rt: &R,
    node: &Mutex<LockedNode<MemKeeper, L>>,
    mail: &Mail,
    share: &mut Share<L>,
    packet: Packet,
)
    requires { 0 < share.old.parts }
    ensures { share.new.parts ≡ share.old.parts }
{
    if let Ok(out) = feed(rt, node, share, mail.reading(), packet) {
        send_all(rt, mail, &out);
    }
}

// Feeds it what it is handed, till it has no more to do. Its share.
fn feed_on<L: Naming, R: Wait>(
    rt: &R,
    node: &Mutex<LockedNode<MemKeeper, L>>,
    inbox: &Inbox<Task>,
    mail: &Mail,
    mut share: Share<L>,
) -> Share<L>
    requires { 0 < share.parts }
    ensures { result.parts ≡ share.parts }
{
    for _ in rt.forever() {
        let Some(Task::Feed(packet)) = inbox.next(rt) else {
            break;
        };
        feed_and_send(rt, node, mail, &mut share, packet);
    }
    share
}

// Two threads feed it. The share of both.
fn feed_by_two<L: Naming + Send + Sync, R: Threads + Wait + Sync>(
    rt: &R,
    node: &Mutex<LockedNode<MemKeeper, L>>,
    inbox: &Inbox<Task>,
    mail: &Mail,
    mut mine: Share<L>,
) -> Share<L>
    requires { mine.parts ≡ 2 }
    ensures { result.parts ≡ 2 }
{
    let theirs = mine.split_off(1, 0);
    let (mut mine, theirs) = join(
        rt,
        || -> Share<L>
            requires { mine.parts ≡ 1 }
            ensures { result.parts ≡ 1 }
        { feed_on(rt, node, inbox, mail, mine) },
        || -> Share<L>
            requires { theirs.parts ≡ 1 }
            ensures { result.parts ≡ 1 }
        { feed_on(rt, node, inbox, mail, theirs) },
    );
    mine.merge(theirs);
    mine
}

/// Four threads feed it. The share of all.
pub(crate) fn feed_by_four<L: Naming + Send + Sync, R: Threads + Wait + Sync>(
    rt: &R,
    node: &Mutex<LockedNode<MemKeeper, L>>,
    inbox: &Inbox<Task>,
    mail: &Mail,
    mut mine: Share<L>,
) -> Share<L>
    requires { mine.parts ≡ 4 }
    ensures { result.parts ≡ 4 }
{
    let theirs = mine.split_off(2, 0);
    let (mut mine, theirs) = join(
        rt,
        || -> Share<L>
            requires { mine.parts ≡ 2 }
            ensures { result.parts ≡ 2 }
        { feed_by_two(rt, node, inbox, mail, mine) },
        || -> Share<L>
            requires { theirs.parts ≡ 2 }
            ensures { result.parts ≡ 2 }
        { feed_by_two(rt, node, inbox, mail, theirs) },
    );
    mine.merge(theirs);
    mine
}
