//! Nodes on threads of their own.
ghost use Rattle.std.specs.Prelude.{◌≡◌, ◌≤◌, All, vec_len};
ghost use Rattle.sqlread.specs.Meaning.{language_of};

use crate::berth::{Control, Post, tend};
use crate::desk::{Desk, Stopped};
use crate::gate::Gate;
use crate::handle::ClusterHandle;
use fault::Refusal;
use flight::life::Life;
use keep::keeper::Keeper;
use network::inboxes::open_inbox_of_one;
use schema::Schema;
use std::alloc::{AllocError, Global};
use std::ops::Deref;
use std::sync::{Arc, Mutex, Wait};
use std::thread;
use std::thread::{JoinHandle, Threads};

/// What a cluster starts from: the tables of all nodes, and for each node, from the first on, the image of its keeper.
#[derive(Drop)]
pub struct Config<I: Drop> {
    pub schema: Schema,
    pub images: Vec<I>,
}

/// What is left of a cluster that ended, for each node from the first on.
#[derive(Drop)]
pub struct Ended {
    pub lives: Vec<Vec<Life>>,
    /// What the life leaves that ran as the cluster ended, if one did.
    pub stopped: Vec<Option<Stopped>>,
}

// A node's thread, and the desk by which it is told what to do.
#[derive(Drop)]
struct Berth {
    desk: Desk,
    thread: JoinHandle<Vec<Life>>,
}

// The threads of nodes, and their desks.
struct Crew {
    desks: Vec<Mutex<Desk>>,
    threads: Vec<JoinHandle<Vec<Life>>>,
    // In whose places comes what each node leaves.
    ended: Ended,
}

// A thread for a node, on which nothing runs. The error is want of memory, or that no thread can be made.
fn open_berth<K, G, R>(
    rt: &R,
    alloc: Global,
    post: Post,
    image: K::Image,
    gate: Arc<G>,
) -> Result<Berth, AllocError>
where
    K: Keeper + Send + 'static,
    K::Image: Send + Drop + 'static,
    G: Gate + Send + Sync + Drop + 'static,
    R: Wait + Threads + Copy + Send + Drop + 'static,
    requires { K.suits image post.members (language_of post.schema) }
{
    let (control, told) = open_inbox_of_one::<Control>(alloc)?;
    let own = *rt;
    let work = move || -> Vec<Life>
        requires { K.suits image post.members (language_of post.schema) }
    { tend::<K, G, R>(&own, alloc, &post, image, &told, &*gate) };
    let thread = thread::spawn(rt, work)?;
    Ok(Berth {
        desk: Desk::new(control),
        thread,
    })
}

// A value that other threads may have and share.
fn shared<T: Send + Sync>(value: T) -> T
    ensures { result ≡ value }
{
    value
}

// Waits for the threads to end.
fn join_all<R: Threads>(rt: &R, threads: Vec<JoinHandle<Vec<Life>>>) {
    for thread in threads {
        drop(thread.join(rt));
    }
}

impl Crew {
    // Of nobody.
    fn new(alloc: Global) -> Crew {
        Crew {
            desks: Vec::new(alloc),
            threads: Vec::new(alloc),
            ended: Ended {
                lives: Vec::new(alloc),
                stopped: Vec::new(alloc),
            },
        }
    }

    // Makes a thread for a node, and starts it there.
    fn add<K, G, R>(
        &mut self,
        rt: &R,
        alloc: Global,
        post: Post,
        image: K::Image,
        gate: Arc<G>,
    ) -> Result<(), Refusal>
    where
        K: Keeper + Send + 'static,
        K::Image: Send + Drop + 'static,
        G: Gate + Send + Sync + Drop + 'static,
        R: Wait + Threads + Copy + Send + Drop + 'static,
        requires { K.suits image post.members (language_of post.schema) }
    {
        self.ended.lives.push(Vec::new(alloc))?;
        self.ended.stopped.push(None)?;
        self.threads.reserve(1)?;
        self.desks.reserve(1)?;
        let Berth { mut desk, thread } = open_berth::<K, G, R>(rt, alloc, post, image, gate)?;
        self.threads.push_reserved(thread);
        let started = desk.start(rt, alloc);
        self.desks.push_reserved(Mutex::new(desk));
        started
    }

    // Makes a thread for each image, and starts its node there.
    #[tactic(auto, using(crate::proofs::Carried::all_first, crate::proofs::Carried::all_left, crate::proofs::Carried::all_same))]
    fn add_all<K, G, R>(
        &mut self,
        rt: &R,
        alloc: Global,
        schema: &Schema,
        images: Vec<K::Image>,
        gate: Arc<G>,
    ) -> Result<(), Refusal>
    where
        K: Keeper + Send + 'static,
        K::Image: Send + Drop + 'static,
        G: Gate + Send + Sync + Drop + 'static,
        R: Wait + Threads + Copy + Send + Drop + 'static,
        requires few { vec_len images ≤ 7 }
        requires suits { All (λ image. K.suits image (vec_len images) (language_of schema.now)) images.items }
    {
        let members = images.len();
        let mut me = 0;
        for image in images {
            me += 1;
            let schema = schema.clone()?;
            let post = Post {
                schema,
                members,
                me,
            };
            let gate = Arc::try_clone(&gate)?;
            self.add::<K, G, R>(rt, alloc, post, image, gate)?;
        }
        Ok(())
    }

    // Ends the threads.
    fn disband<R: Threads>(self, rt: &R) {
        let Crew {
            desks,
            threads,
            ended: _ended,
        } = self;
        drop(desks);
        join_all(rt, threads);
    }
}

/// Nodes, each on a thread of its own that feeds its cell what the node is sent. Its calls are those of `ClusterHandle`, for which other
/// threads have handles of their own. It is ended by `stop`, which joins each thread; it can't be dropped, and stays on the thread that
/// started it.
pub struct Cluster {
    handle: ClusterHandle,
    threads: Vec<JoinHandle<Vec<Life>>>,
    // In whose places comes what each node leaves.
    ended: Ended,
}

impl Cluster {
    /// Starts a node for each image, with a thread of its own that passes the gate right before and right after each feed.
    /// The caller sees to it that there are up to seven, and to what the keeper asks of an image. 40, 43 or 44 where one of
    /// them does not start; no thread is left then.
    pub fn start<K, G, R>(
        rt: &R,
        alloc: Global,
        config: Config<K::Image>,
        gate: Arc<G>,
    ) -> Result<Cluster, Refusal>
    where
        K: Keeper + Send + 'static,
        K::Image: Send + Drop + 'static,
        G: Gate + Send + Sync + Drop + 'static,
        R: Wait + Threads + Copy + Send + Drop + 'static,
        requires few { vec_len config.images ≤ 7 }
        requires suits { All (λ image. K.suits image (vec_len config.images) (language_of config.schema)) config.images.items }
    {
        let mut crew = Crew::new(alloc);
        let Config { schema, images } = config;
        if let Err(refusal) = crew.add_all::<K, G, R>(rt, alloc, &schema, images, gate) {
            crew.disband(rt);
            return Err(refusal);
        }
        let Crew {
            desks,
            threads,
            ended,
        } = crew;
        match ClusterHandle::new(alloc, desks) {
            Ok(handle) => Ok(Cluster {
                handle: shared(handle),
                threads,
                ended,
            }),
            Err(error) => {
                join_all(rt, threads);
                Err(Refusal::from(error))
            }
        }
    }

    /// A handle for the calls of this cluster, from another thread. The error is want of memory.
    pub fn handle(&self) -> Result<ClusterHandle, AllocError> {
        self.handle.try_clone()
    }

    /// Ends all nodes once they have done what they were sent, joins their threads, and gives what is left of each node. The
    /// last life of a node that runs and is up ends `Up`. From then on each call of a handle is refused 41.
    pub fn stop<R: Threads + Wait>(self, rt: &R) -> Ended {
        let Cluster {
            handle,
            threads,
            mut ended,
        } = self;
        for (at, thread) in threads.into_iter().enumerate() {
            let (lives, stopped) = handle.end_one(rt, at, thread);
            if let Some(place) = ended.lives.get_mut(at) {
                *place = lives;
            }
            if let Some(place) = ended.stopped.get_mut(at) {
                *place = stopped;
            }
        }
        ended
    }
}

/// The calls of a cluster are those of its handle.
impl Deref for Cluster {
    type Target = ClusterHandle;

    fn deref(&self) -> &ClusterHandle {
        &self.handle
    }
}
