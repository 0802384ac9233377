//! Answers as CSV.
ghost use Rattle.std.specs.Prelude.{◌≡◌, [], map, string_bytes, IfOk, OnOk, Some};
ghost use Rattle.std.specs.List.{flat_map};
ghost use Rattle.std.specs.Io.KnownBytes.{Appends};
ghost use Rattle.csv.specs.Writing.{row_text, text_written, writer_under, writer_pending};
ghost use Rattle.looks.specs.Separated.{csv_text, fields_of, rfc_4180, IsBetween};

use crate::bare::Bare;
use answer::{Answer, Column, Shown};
use csv::{Terminator, Writer, WriterBuilder};
use std::alloc::{AllocError, Global};
use std::io::Write;

/// An answer as CSV, by RFC 4180: the names of the columns and then each row, with commas between fields and CR and LF
/// behind each line. A text is bare, or in double quotes, doubled within, where it has one, a comma or a line's end;
/// an open system end is the highest value, 9999-12-31 23:59:59.999999. The error is want of memory.
pub fn answer_as_csv(alloc: Global, answer: &Answer) -> Result<Vec<u8>, AllocError>
    ensures { IfOk result (λ text. text.items ≡ csv_text answer.now) }
{
    let mut writer = new_writer(alloc);
    put_all(alloc, answer, &mut writer)?;
    match writer.into_inner() {
        Ok(text) => Ok(text),
        Err(_) => Err(AllocError),
    }
}

fn new_writer(alloc: Global) -> Writer<Vec<u8>>
    ensures between { IsBetween result }
    ensures under { (writer_under result).items ≡ [] }
    ensures pending { writer_pending result ≡ [] }
{
    WriterBuilder::new()
        .terminator(Terminator::CRLF)
        .from_writer(Vec::new(alloc))
}

#[tactic(auto, unfolding(crate::specs::Separated::csv_text))]
fn put_all(alloc: Global, answer: &Answer, writer: &mut Writer<Vec<u8>>) -> Result<(), AllocError>
    requires { IsBetween writer.old }
    ensures { OnOk result (Appends (text_written (λ v. Some v.items) writer.old) (text_written (λ v. Some v.items) writer.new) (csv_text answer.now)) }
{
    let columns = answer.columns.as_slice();
    put_record(names_of(alloc, columns)?, writer)?;
    for row in &answer.rows {
        put_record(fields_of(alloc, columns, row)?, writer)?;
    }
    Ok(())
}

fn put_record(fields: Vec<String>, writer: &mut Writer<Vec<u8>>) -> Result<(), AllocError>
    requires { IsBetween writer.old }
    ensures text { OnOk result (Appends (text_written (λ v. Some v.items) writer.old) (text_written (λ v. Some v.items) writer.new) (row_text rfc_4180 (map string_bytes fields.items))) }
    ensures between { OnOk result (IsBetween writer.new) }
{
    match writer.write_record(fields) {
        Ok(()) => Ok(()),
        Err(_) => Err(AllocError),
    }
}

fn names_of(alloc: Global, columns: &[Column]) -> Result<Vec<String>, AllocError>
    ensures { IfOk result (λ names. map string_bytes names.items ≡ map (λ c. c.name) columns.now) }
{
    let mut names = Vec::new(alloc);
    for column in columns {
        names.push(String::from_str(alloc, column.name.as_str())?)?;
    }
    Ok(names)
}

// What the columns show of a row.
fn fields_of(alloc: Global, columns: &[Column], row: &Shown) -> Result<Vec<String>, AllocError>
    ensures { IfOk result (λ fields. map string_bytes fields.items ≡ fields_of columns.now row.now) }
{
    let mut fields = Vec::new(alloc);
    for column in columns {
        let shows = column.shows;
        fields.push(Bare { row, shows }.to_string(alloc)?)?;
    }
    Ok(fields)
}
