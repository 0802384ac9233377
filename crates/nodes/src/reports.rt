//! What came of feeds, as those take it who sent to the node.
use crate::berth::Report;
use network::Inbox;
use std::alloc::Global;
use std::mem;
use std::sync::{Mutex, Wait};

/// What came of the feeds of a life, till it is asked for: a list for packets that were sent together. Threads share it, and
/// each report goes to one of them.
#[derive(Drop)]
pub(crate) struct Reports {
    alloc: Global,
    lists: Inbox<Vec<Report>>,
    // What is left of a list of which some were asked for. The next one is last.
    begun: Mutex<Vec<Report>>,
}

impl Reports {
    pub(crate) fn new(alloc: Global, lists: Inbox<Vec<Report>>) -> Reports {
        Reports {
            alloc,
            lists,
            begun: Mutex::new(Vec::new(alloc)),
        }
    }

    /// The next one, for which it waits; none once nothing is left and the life has ended.
    pub(crate) fn next<R: Wait>(&self, rt: &R) -> Option<Report> {
        let mut begun = self.begun.lock(rt);
        for _ in rt.forever() {
            if let Some(report) = begun.pop() {
                return Some(report);
            }
            let mut list = self.lists.next(rt)?;
            list.reverse();
            *begun = list;
        }
        unreachable!()
    }

    /// What is left of the next list, for which it waits; none once nothing is left and the life has ended.
    pub(crate) fn next_list<R: Wait>(&self, rt: &R) -> Option<Vec<Report>> {
        let mut begun = self.begun.lock(rt);
        if begun.is_empty() {
            return self.lists.next(rt);
        }
        let mut list = mem::replace(&mut *begun, Vec::new(self.alloc));
        list.reverse();
        Some(list)
    }
}
