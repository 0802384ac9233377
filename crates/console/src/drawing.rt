//! Pictures of what was ever believed.
ghost use Rattle.std.specs.Prelude.{◌≡◌, ◌++◌, ◌∷◌, MatchOption, codes};

use crate::printing::{print, print_bytes};
use crate::requests::is_of_text;
use crate::restores::restore_unsynced;
use crate::session::Session;
use crate::stop::{Fault, Stop};
use diagnosis::Name;
use forms::{Canvas, Drawing, draw_answer};
use model::member::Member;
use model::stamp::Stamp;
use schema::Schema;
use sqlread::query::read_query;
use std::alloc::{AllocError, Global};
use std::{fs, io};
use store::announcing::Announces;
use store::{Store, StoreRefusal};
use storefolder::{Found, Task, reading_of, with_store};

// How many columns a picture has, where nothing tells.
const WIDE: usize = 80;

// Why a page is not drawn that would be too large.
const TOO_MUCH: &str = "more than 200 versions: ask about fewer days, instants or keys";

// The rest of a question behind its table's name; none of a text that has none.
fn behind_table(text: &str) -> Option<&str> {
    let (_, rest) = text.split_once('*')?;
    let (_, rest) = rest.trim_start().split_at_checked(4)?;
    let rest = rest.trim_start();
    let is_name = |letter: char| letter.is_ascii_alphanumeric() || letter == '_';
    Some(rest.trim_start_matches(is_name))
}

// Whether a text is a question that names no instant.
fn is_without_time(alloc: Global, schema: &Schema, text: &str) -> bool {
    match read_query(alloc, schema, text) {
        Ok(query) => query.time.is_none(),
        Err(_) => false,
    }
}

// A question that names no instant, about all instants up to this one; any other as it is.
fn about_all(
    alloc: Global,
    schema: &Schema,
    text: &str,
    closed: Option<Stamp>,
) -> Result<String, AllocError> {
    let (Some(rest), Some(stamp)) = (behind_table(text), closed) else {
        return String::from_str(alloc, text);
    };
    if !is_without_time(alloc, schema, text) {
        return String::from_str(alloc, text);
    }
    let before = text.len().saturating_sub(rest.len());
    let head = text.get(..before).unwrap_or("");
    let last = stamp.instant();
    format!(in alloc;
        "{head} FOR SYSTEM_TIME BETWEEN TIMESTAMP '1970-01-01 00:00:00.000000' AND TIMESTAMP '{last}'{rest}"
    )
}

// Up to which instant a member can be asked.
fn closed_at<K: Announces>(store: &Store<K>, member: Member) -> Result<Option<Stamp>, StoreRefusal>
where
    K::Image: Drop,
{
    let all = store.status()?;
    let found = all.iter().find(|status| status.member == member);
    Ok(found.and_then(|status| status.closed))
}

// Asks a member, and draws what was ever believed of the rows that the question asks for, up to what the member has closed.
fn draw_at<K: Announces>(
    alloc: Global,
    store: &mut Store<K>,
    reading: i64,
    member: Member,
    canvas: Canvas,
    text: &str,
) -> Result<Drawing, StoreRefusal>
where
    K::Image: Drop,
{
    let closed = closed_at(store, member)?;
    let question = about_all(alloc, store.schema(), text, closed)?;
    let answer = store.ask(reading, member, question.as_str())?;
    let drawing = draw_answer(
        alloc,
        canvas,
        store.schema(),
        question.as_str(),
        member,
        &answer,
    )?;
    Ok(drawing)
}

// The file that a page goes to, if a text begins with `--svg` and one, and the question.
fn page_and_question(text: &str) -> (Option<&str>, &str)
    ensures { MatchOption result.0 (result.1.now ≡ text.now) (λ path. text.now ≡ codes "--svg " ++ path.now ++ 32 ∷ result.1.now) }
{
    let Some(rest) = text.strip_prefix("--svg ") else {
        return (None, text);
    };
    match rest.split_once(' ') {
        Some((path, question)) => (Some(path), question),
        None => (None, text),
    }
}

fn canvas_of(path: Option<&str>, width: usize) -> Canvas {
    match path {
        Some(_) => Canvas::Page,
        None => Canvas::Text(width),
    }
}

// Says on standard error that nothing is drawn, and why.
fn refuse_drawing(rt: &HostRuntime, why: &str) {
    let _ = eprintln!(*rt; "{why}");
}

// Writes a picture into the file of this name, or where there is none on standard output. Whether it is written.
fn hand_out(rt: &HostRuntime, path: Option<&str>, picture: &[u8]) -> Result<bool, Fault> {
    let Some(path) = path else {
        print_bytes(rt, picture)?;
        return Ok(true);
    };
    match fs::write(rt, path, picture) {
        Ok(()) => Ok(true),
        Err(error) if error.kind() == io::ErrorKind::OutOfMemory => Err(Fault::from(AllocError)),
        Err(error) => {
            let _ = eprintln!(*rt; "{path}: writing the picture: {error}");
            Ok(false)
        }
    }
}

// Hands out what was drawn. Whether anything was.
fn hand_out_drawing(rt: &HostRuntime, path: Option<&str>, drawing: Drawing) -> Result<bool, Fault> {
    match drawing {
        Drawing::Drawn(picture) => hand_out(rt, path, picture.as_slice()),
        Drawing::NoAnswer => {
            refuse_drawing(rt, "nothing to draw");
            Ok(false)
        }
        Drawing::TooMuch => {
            refuse_drawing(rt, TOO_MUCH);
            Ok(false)
        }
    }
}

impl<'a, K: Announces> Session<'a, K>
where
    K::Image: Drop,
{
    // Notes that a page was not written; at a terminal, says that it was.
    fn tell_of_page(
        &mut self,
        rt: &HostRuntime,
        path: Option<&str>,
        is_written: bool,
    ) -> Result<(), Fault> {
        if !is_written {
            self.is_refused = true;
            return Ok(());
        }
        match path {
            Some(path) if self.place.is_terminal => {
                let alloc = self.alloc;
                let line = format!(in alloc; "{path} is written\n")?;
                print(rt, line.as_str())
            }
            _ => Ok(()),
        }
    }

    /// Draws what was ever believed of the rows that a question asks for, up to what the member that is asked first has closed: as
    /// text or, behind `--svg FILE `, as a page in that file.
    pub fn draw(&mut self, rt: &HostRuntime, text: &str) -> Result<(), Fault> {
        let (path, question) = page_and_question(text);
        let canvas = canvas_of(path, self.place.width.unwrap_or(WIDE));
        let reading = self.reading(rt)?;
        let member = self.store.first_asked();
        match draw_at(
            self.alloc,
            &mut self.store,
            reading,
            member,
            canvas,
            question,
        ) {
            Ok(Drawing::NoAnswer) => print(rt, "nothing to draw\n"),
            Ok(drawing) => {
                let is_written = hand_out_drawing(rt, path, drawing)?;
                self.tell_of_page(rt, path, is_written)
            }
            Err(refusal) => self.refuse_question(rt, member, question, refusal),
        }
    }
}

// What is drawn of a store that is open.
#[derive(Drop)]
struct Draw<'a> {
    alloc: Global,
    reading: i64,
    canvas: Canvas,
    question: &'a str,
}

impl<'a> Task for Draw<'a> {
    type Output = Result<Drawing, StoreRefusal>;

    fn work<K: Announces>(
        self,
        _rt: &HostRuntime,
        store: &mut Store<K>,
        _found: &Found,
    ) -> Result<Drawing, StoreRefusal>
    where
        K::Image: Drop,
    {
        let Draw {
            alloc,
            reading,
            canvas,
            question,
        } = self;
        let member = store.first_asked();
        draw_at(alloc, store, reading, member, canvas, question)
    }
}

// What is drawn of the store in a folder. The outer error is one of opening or closing it, the inner one the question's.
fn draw_in(
    rt: &HostRuntime,
    alloc: Global,
    dir: &str,
    canvas: Canvas,
    question: &str,
) -> Result<Result<Drawing, StoreRefusal>, StoreRefusal> {
    restore_unsynced(rt, alloc, dir)?;
    let reading = reading_of(rt, None)?;
    let task = Draw {
        alloc,
        reading,
        canvas,
        question,
    };
    with_store(rt, alloc, dir, true, reading, task)
}

// Why a question was not answered: its text, or what the store has.
fn asking_stopped<'a>(refusal: StoreRefusal, dir: &'a str, question: &'a str) -> Stop<'a> {
    let is_of_text = is_of_text(&refusal);
    let fault = Fault::Refused(refusal);
    if is_of_text {
        let found = "it is no question about the tables of the store";
        return Stop::found(fault, Name::Given(question), "asking it", found);
    }
    Stop::of(fault, Name::Given(dir), "asking what was believed")
}

/// Opens the store in a folder, asks it a question, about all closed instants if it names none, and draws what was believed: as text of
/// so many columns on standard output, or as a page in a file, which it replaces. The store is closed again before anything is
/// written. It gives the exit status: 0, or 1 where the file can't be written or a page would have over 200 versions, which standard
/// error says.
///
/// It ends before its end where standard output fails, or is refused: what `storefolder::open` refuses; 10 to 17 of a text that is no
/// question about its tables; 33 and 41 where nobody can answer it yet.
pub fn draw_beliefs<'a>(
    rt: &HostRuntime,
    dir: &'a str,
    question: &'a str,
    path: Option<&'a str>,
    width: usize,
) -> Result<u8, Stop<'a>> {
    let alloc: Global = rt.alloc();
    let tried = "opening the store and drawing";
    match draw_in(rt, alloc, dir, canvas_of(path, width), question) {
        Ok(Ok(drawing)) => match hand_out_drawing(rt, path, drawing) {
            Ok(is_written) => Ok(if is_written { 0 } else { 1 }),
            Err(fault) => Err(Stop { fault, cause: None }),
        },
        Ok(Err(refusal)) => Err(asking_stopped(refusal, dir, question)),
        Err(refusal) => Err(Stop::of(Fault::Refused(refusal), Name::Given(dir), tried)),
    }
}
