//! Nodes on threads of their own. Here is named all that the calls of clusters, cells and views take and give, so that their
//! user needs no other crate.
#![tactic(auto)]

pub mod berth;
pub mod cluster;
pub mod desk;
pub mod gate;
pub mod handle;
mod reports;

pub use answer::Answer;
pub use answertext::Lines;
pub use berth::{Report, Sent};
pub use cells::cell::{Cell, Out};
pub use cells::locked::{LockedNode, Naming};
pub use cluster::{Cluster, Config, Ended};
pub use desk::{NoneSent, NotSent, Stopped};
pub use fault::{Refusal, Text};
pub use flight::life::{Ending, Life, Opening, Packet, Step};
pub use gate::{Gate, Point};
pub use handle::ClusterHandle;
pub use keep::{Keeper, MemImage, MemKeeper, StoreError};
pub use model::entry::{Entry, Request};
pub use model::mark::Mark;
pub use model::member::Member;
pub use model::message::{Body, Input, Message};
pub use model::request::{Client, RequestNumber};
pub use model::stamp::Stamp;
pub use node::{Fault, Out as Given};
pub use schema::Schema;
pub use schemaread::schemas::read_schema;
pub use sqlread::query::{Query, read_query};
pub use view::{Marked, Name, Notice, View};
