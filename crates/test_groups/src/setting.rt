//! The tables of the tests, the question that is asked again and again, and what has to be answered.
use crate::effect::{Effect, Notes};
use answer::Answer;
use answertext::Lines;
use fault::Refusal;
use schema::Schema;
use schemaread::schemas::read_schema;
use sqlread::query::{Query, read_query};
use std::alloc::Global;
use std::process::Abort;

// Departments, and people who belong to one.
const SCHEMA: &str = "CREATE TABLE Dept (DNo INTEGER, DStart DATE, DEnd DATE, DName VARCHAR(30), \
    SysStart TIMESTAMP(6) GENERATED ALWAYS AS ROW START, SysEnd TIMESTAMP(6) GENERATED ALWAYS AS ROW END, \
    PERIOD FOR DPeriod (DStart, DEnd), PERIOD FOR SYSTEM_TIME (SysStart, SysEnd), \
    PRIMARY KEY (DNo, DPeriod WITHOUT OVERLAPS)) WITH SYSTEM VERSIONING; \
    CREATE TABLE Emp (ENo INTEGER, EStart DATE, EEnd DATE, EDept INTEGER, \
    SysStart TIMESTAMP(6) GENERATED ALWAYS AS ROW START, SysEnd TIMESTAMP(6) GENERATED ALWAYS AS ROW END, \
    PERIOD FOR EPeriod (EStart, EEnd), PERIOD FOR SYSTEM_TIME (SysStart, SysEnd), \
    PRIMARY KEY (ENo, EPeriod WITHOUT OVERLAPS), \
    FOREIGN KEY (EDept, PERIOD EPeriod) REFERENCES Dept (DNo, PERIOD DPeriod)) WITH SYSTEM VERSIONING;";

// What is answered of people before the client's first request, after it, and after the second.
const NO_ROW: &str = "\ncolumns ENo,EStart,EEnd,EDept,SysStart,SysEnd\nrows 0\n";

const ONE_ROW: &str = "\ncolumns ENo,EStart,EEnd,EDept,SysStart,SysEnd\n\
    row 22217,2010-01-01,2011-11-12,3,1970-01-01 00:00:00.000200,9999-12-31 23:59:59.999999\n\
    rows 1\n";

const THREE_ROWS: &str = "\ncolumns ENo,EStart,EEnd,EDept,SysStart,SysEnd\n\
    row 22217,2010-01-01,2011-02-03,3,1970-01-01 00:00:00.000400,9999-12-31 23:59:59.999999\n\
    row 22217,2011-02-03,2011-09-10,4,1970-01-01 00:00:00.000400,9999-12-31 23:59:59.999999\n\
    row 22217,2011-09-10,2011-11-12,3,1970-01-01 00:00:00.000400,9999-12-31 23:59:59.999999\n\
    rows 3\n";

// What is answered of departments from the first request on.
const DEPARTMENTS: &str = "\ncolumns DNo,DStart,DEnd,DName,SysStart,SysEnd\n\
    row 3,2000-01-01,2020-01-01,'Test',1970-01-01 00:00:00.000200,9999-12-31 23:59:59.999999\n\
    row 4,2000-01-01,2020-01-01,'Test',1970-01-01 00:00:00.000200,9999-12-31 23:59:59.999999\n\
    rows 2\n";

// What an answer about this table as of this instant says, from the end of its first line on. Whoever executes a request, and
// however often it is made, it is executed at the reading that it bears.
fn rows_at(table: usize, last: u64) -> &'static str {
    if table == 0 {
        DEPARTMENTS
    } else if last < 200 {
        NO_ROW
    } else if last < 400 {
        ONE_ROW
    } else {
        THREE_ROWS
    }
}

/// The tables, and a question about people as of what is closed.
#[derive(Drop)]
pub(crate) struct Setting {
    pub alloc: Global,
    pub schema: Schema,
    pub query: Query,
}

/// The setting of a test.
pub(crate) fn prepare(alloc: Global) -> Result<Setting, Refusal> {
    let schema = read_schema(alloc, SCHEMA)?;
    let query = read_query(alloc, &schema, "SELECT * FROM Emp;")?;
    Ok(Setting {
        alloc,
        schema,
        query,
    })
}

// The text of an answer. Where memory is refused, it is made again.
fn text_of(rt: &impl Abort, alloc: Global, notes: &mut Notes, answer: &Answer) -> String {
    if let Ok(text) = format!(in alloc; "{}", Lines(answer)) {
        return text;
    }
    notes.note(rt, 43, Effect::Test);
    match format!(in alloc; "{}", Lines(answer)) {
        Ok(text) => text,
        Err(_) => panic!(rt; "no text"),
    }
}

/// An answer is about the last instant of its question, if that names one, and has exactly the rows of then.
pub(crate) fn judge(
    rt: &impl Abort,
    alloc: Global,
    notes: &mut Notes,
    query: &Query,
    answer: &Answer,
) {
    let last = answer.last.micros();
    if let Some(time) = &query.time {
        assert!(rt; time.last.micros() == last);
    }
    let text = text_of(rt, alloc, notes, answer);
    assert!(rt; text.as_str().ends_with(rows_at(query.table, last)));
}
