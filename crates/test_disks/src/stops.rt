//! A member of which each file call is stopped in turn.
use crate::files::{ALL, Pair, file_of, has_stopped};
use crate::found::Found;
use crate::life::{Life, live_on};
use crate::member::Ended;
use crate::remains::{Left, QUARTERS};
use crate::states::{SCHEMA, STEPS};
use schema::Schema;
use schemaread::schemas::read_schema;
use sqlite::Files;
use std::alloc::{AllocError, Global};
use std::test::Fail;

// What came of the lives of which a file stopped.
#[derive(Clone, Copy, Debug, Default)]
struct Counts {
    /// How many calls were stopped, one in each life.
    calls: u64,
    /// How many of these took the member down with 40, or kept it from starting.
    downs: u64,
    /// How often the files that were left were opened again.
    opens: u64,
    /// How many of these opens found the step that was stopped done.
    after: u64,
    /// The last life that left what it must not, and the two after it.
    wrong: Option<[Life; 3]>,
}

// New files, of which one stops after so many calls.
fn stopping(alloc: Global, is_log: bool, calls: u64) -> Result<Pair, AllocError> {
    let (log_calls, db_calls) = if is_log { (calls, ALL) } else { (ALL, calls) };
    let log = file_of(alloc, &[], log_calls)?;
    let db = file_of(alloc, &[], db_calls)?;
    Ok(Files { log, db })
}

// After how many steps what is stored may be after a life: at least so many, and at most.
fn bounds(life: Life) -> Option<(usize, usize)> {
    match life.ended {
        Some(Ended::Whole) => Some((STEPS, STEPS)),
        Some(Ended::Unstarted(40)) => Some((0, 0)),
        Some(Ended::Down { steps, number: 40 }) => Some((steps, steps.saturating_add(1))),
        None if matches!(life.found, Found::Unopened(40) | Found::Refused(40)) => Some((0, 0)),
        _ => None,
    }
}

// Whether a life over new files may leave this, and it is of after the last step.
fn is_after(life: Life, found: Found) -> Option<bool> {
    let (least, most) = bounds(life)?;
    match found {
        Found::Steps(steps) if least <= steps && steps <= most => Some(least < steps),
        _ => None,
    }
}

impl Counts {
    // Opens files that a life left: they hold what was stored before its last step or after it, and the member goes on from
    // there to the last one.
    fn open_again(&mut self, alloc: Global, schema: &Schema, life: Life, files: Pair) {
        let (next, files) = live_on(alloc, files, schema, true);
        let (last, _) = live_on(alloc, files, schema, false);
        self.count(life, next, last);
    }

    // Counts what an open of files found that a life left.
    fn count(&mut self, life: Life, next: Life, last: Life) {
        self.opens = self.opens.saturating_add(1);
        let is_whole = matches!(next.ended, Some(Ended::Whole))
            && matches!(last.found, Found::Steps(STEPS));
        match is_after(life, next.found) {
            Some(true) if is_whole => self.after = self.after.saturating_add(1),
            Some(false) if is_whole => {}
            _ => self.wrong = Some([life, next, last]),
        }
    }

    // Opens what is left of the files, with each part of the log that may be on the disk.
    fn open_logs(
        &mut self,
        alloc: Global,
        schema: &Schema,
        life: Life,
        left: &Left,
        db: usize,
    ) -> Result<(), AllocError> {
        for log in 0..QUARTERS + 1 {
            if left.differs(log, db) {
                let files = left.files(alloc, log, db)?;
                self.open_again(alloc, schema, life, files);
            }
        }
        Ok(())
    }

    // Opens what is left of the files, with each part of both that may be on the disk.
    fn open_all(
        &mut self,
        alloc: Global,
        schema: &Schema,
        life: Life,
        left: &Left,
    ) -> Result<(), AllocError> {
        for db in 0..QUARTERS + 1 {
            self.open_logs(alloc, schema, life, left, db)?;
        }
        Ok(())
    }

    // A life of which a file stops after so many calls. Whether it was stopped, or would be at the next call.
    fn stop_after(
        &mut self,
        alloc: Global,
        schema: &Schema,
        is_log: bool,
        calls: u64,
    ) -> Result<bool, AllocError> {
        let files = stopping(alloc, is_log, calls)?;
        let (life, mut files) = live_on(alloc, files, schema, true);
        let stopped = has_stopped(&mut files.log) || has_stopped(&mut files.db);
        let left = Left::of(alloc, &mut files)?;
        self.open_all(alloc, schema, life, &left)?;
        if !matches!(life.ended, Some(Ended::Whole)) {
            self.downs = self.downs.saturating_add(1);
        }
        Ok(stopped)
    }
}

// Stops a file at each of its calls, ten thousand at most.
fn stop_each(alloc: Global, schema: &Schema, is_log: bool) -> Result<Counts, AllocError> {
    let mut counts = Counts::default();
    for calls in 0..10_000 {
        if !counts.stop_after(alloc, schema, is_log, calls)? {
            break;
        }
        counts.calls = calls;
    }
    Ok(counts)
}

/// Each time the member goes down with 40 or does not start.
#[test]
fn file_calls_stop(rt: HostRuntime) -> Result<(), Fail> {
    let schema = read_schema(rt.alloc(), SCHEMA)?;
    for (name, is_log) in [("log", true), ("database", false)] {
        let counts = stop_each(rt.alloc(), &schema, is_log)?;
        println!(rt; "{name}: {counts:?}")?;
        assert!(rt; counts.calls > 0 && counts.downs == counts.calls && counts.wrong.is_none());
    }
    Ok(())
}
