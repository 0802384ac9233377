//! Questions about the instants of a system time.
ghost use Rattle.std.specs.Prelude.{◌≡◌, ◌≤◌, length, true, Err, IfOk, IfErr};
ghost use Rattle.fault.specs.declared.refusal.Refusal.TheVariants.{NoMemory};
ghost use Rattle.sqlread.specs.Shapes.{query_of, time_of};
ghost use Rattle.sqlread.specs.Meaning.{select_of};
ghost use Rattle.versionlaws.specs.Answering.{answer_from};
ghost use Rattle.answer.specs.Answers.{answer_of, columns_in};
ghost use Rattle.sysversion.specs.Versions.{versions_of};
ghost use Rattle.asof.specs.Asking.{read_with, IsKept};
ghost use Rattle.asof.specs.Named.{IsFew, IsFewOnDay, IsFewRows};

use crate::found::{found, in_order};
use crate::shown::show_all;
use answer::{Answer, columns_of};
use fault::Refusal;
use overlaps::Count;
use sqlread::query::{Query, SystemTime};
use std::alloc::Global;
use sysversion::Versions;

/// What answers questions about the instants of a system time.
pub trait Ask {
    ghost use Rattle.std.specs.Prelude.{◌≡◌, ◌≤◌, length, true, Err, IfOk, IfErr, ℕ, Bool, List};
    ghost use Rattle.fault.specs.declared.refusal.Refusal.TheVariants.{NoMemory};
    ghost use Rattle.sqlchecks.specs.Columns.{Tables};
    ghost use Rattle.sqlread.specs.Shapes.{query_of, time_of};
    ghost use Rattle.sqlread.specs.Meaning.{select_of};
    ghost use Rattle.versionlaws.specs.Answering.{answer_from};
    ghost use Rattle.versionlaws.specs.Versions.{Version};
    ghost use Rattle.answer.specs.Answers.{answer_of, columns_in};
    ghost use Rattle.asof.specs.Asking.{read_with, IsKept};
    ghost use Rattle.asof.specs.Named.{IsFew, IsFewOnDay, IsFewRows};

    /// The versions of each table, by its number, that the answers come from.
    ghost versions_in: { Self → ℕ → List Version };

    /// The tables of the schema, whose columns the answers have.
    ghost tables_in: { Self → Tables };

    /// It has found no memory, and answers no more.
    ghost failed_in: { Self → Bool };

    /// The answer to a question that is read with this system time, whatever its own is.
    ///
    /// Refused for want of memory alone, always once it has failed.
    fn ask(&self, alloc: Global, query: &Query, time: SystemTime) -> Result<Answer, Refusal>
        ensures ok { IfOk result (λ a. answer_of a ≡ answer_from (read_with (time_of time) (select_of (query_of query.now))) (versions_in self.now query.now.table)) }
        ensures kept { IfOk result (λ a. IsKept (read_with (time_of time) (select_of (query_of query.now))) (versions_in self.now query.now.table) (answer_of a)) }
        ensures columns { IfOk result (λ a. a.columns.items ≡ columns_in (tables_in self.now) query.now.table) }
        ensures err { IfErr result (λ refusal. refusal ≡ NoMemory) }
        ensures once_failed { failed_in self.now ≡ true → result ≡ Err NoMemory };

    /// The same answer, and how many versions were tested for it: at least each that is in the answer. Where WHERE has `=`
    /// for each column of a key, and so many columns have the versions' keys, these are at most the key's versions, and so
    /// at most as many as the different rows of that key over all instants. Where WHERE asks for a day besides, they are at
    /// most those versions of the key whose periods have the day, or would have it if they went on for as many days again.
    ///
    /// Refused as `ask` is.
    fn ask_counted(
        &self,
        alloc: Global,
        query: &Query,
        time: SystemTime,
    ) -> Result<(Answer, u64), Refusal>
        ensures ok { IfOk result (λ a. answer_of a.0 ≡ answer_from (read_with (time_of time) (select_of (query_of query.now))) (versions_in self.now query.now.table)) }
        ensures kept { IfOk result (λ a. IsKept (read_with (time_of time) (select_of (query_of query.now))) (versions_in self.now query.now.table) (answer_of a.0)) }
        ensures columns { IfOk result (λ a. a.0.columns.items ≡ columns_in (tables_in self.now) query.now.table) }
        ensures few { IfOk result (λ a. IsFew query.now.terms.items (versions_in self.now query.now.table) a.1) }
        ensures few_on_day { IfOk result (λ a. IsFewOnDay query.now.terms.items (versions_in self.now query.now.table) a.1) }
        ensures few_rows { IfOk result (λ a. IsFewRows query.now.terms.items (versions_in self.now query.now.table) a.1) }
        ensures each { IfOk result (λ a. length a.0.rows.items ≤ a.1) }
        ensures err { IfErr result (λ refusal. refusal ≡ NoMemory) }
        ensures once_failed { failed_in self.now ≡ true → result ≡ Err NoMemory };
}

impl Ask for Versions {
    ghost use Rattle.sysversion.specs.Versions.{versions_of, schema_in, is_failed};

    ghost versions_in = { versions_of };

    ghost tables_in = { schema_in };

    ghost failed_in = { is_failed };

    fn ask(&self, alloc: Global, query: &Query, time: SystemTime) -> Result<Answer, Refusal> {
        let (answer, _) = self.ask_counted(alloc, query, time)?;
        Ok(answer)
    }

    fn ask_counted(
        &self,
        alloc: Global,
        query: &Query,
        time: SystemTime,
    ) -> Result<(Answer, u64), Refusal> {
        if self.has_failed() {
            return Err(Refusal::NoMemory);
        }
        versionlaws::versions_give();
        versionlaws::few_versions();
        let mut count = Count::new();
        let terms = query.terms.as_slice();
        let found = found(alloc, self, query.table, &time, terms, &mut count)?;
        let sorted = in_order(found)?;
        let rows = show_all(alloc, sorted.as_slice(), time.last)?;
        let columns = columns_of(alloc, self.schema(), query.table)?;
        let answer = Answer {
            last: time.last,
            columns,
            rows,
        };
        Ok((answer, count.reads()))
    }
}
