//! Schemas, read from the left.

ghost use Rattle.std.specs.Prelude.{◌≡◌, Ok, map};
ghost use Rattle.sqltokens.specs.What.{What, whats, is_word, is_symbol};
ghost use Rattle.sqltokens.specs.Classes.{is_name};
ghost use Rattle.phrase.specs.Grammar.{expect, one};
ghost use Rattle.phrase.specs.Reading.{Gives};
ghost use Rattle.namesyntax.specs.Names.{name_of, names_of};
ghost use Rattle.schemasyntax.specs.Schemas.{is_six, column_type, type_form, column, column_form, column_comma, columns, application_period, application_form, system_period, system_form, key_columns, key, name_comma, names_comma, key_names, key_names_form, reference, reference_form, another_reference, table, table_form, tables};

use crate::forms::{
    ApplicationPeriod, Column, ColumnType, ForeignKey, KeyNames, SystemPeriod, Table,
};
use namesyntax::Name;
use namesyntax::lists::{Repeated, more, row};
use namesyntax::names::{AnotherName, name, next_is_name};
use phrase::ReadError;
use sqltokens::{
    Cursor, Keyword, Kind, Sign, digits, has_shape, next_is, next_is_sign, sign, word,
};
use std::alloc::Global;

fn six(cursor: &mut Cursor) -> Result<(), ReadError>
    ensures { Gives (λ _. whats cursor.new.rest.now) result (expect is_six (whats cursor.old.rest.now)) }
{
    if let [first, rest @ ..] = cursor.rest {
        if let Kind::Digits(d) = first.kind {
            if has_shape(b"6", d.digits.as_bytes()) {
                cursor.rest = rest;
                return Ok(());
            }
        }
    }
    Err(ReadError::Wrong(cursor.rest.len()))
}

#[tactic(auto, unfolding(crate::specs::Schemas::column_type))]
fn column_type<'a>(cursor: &mut Cursor<'_, 'a>) -> Result<ColumnType<'a>, ReadError>
    ensures { Gives (λ x. (type_form x, whats cursor.new.rest.now)) result (column_type.read (whats cursor.old.rest.now)) }
{
    if next_is(cursor, Keyword::Integer) {
        word(cursor, Keyword::Integer)?;
        return Ok(ColumnType::Integer);
    }
    if next_is(cursor, Keyword::Varchar) {
        word(cursor, Keyword::Varchar)?;
        sign(cursor, Sign::Open)?;
        let length = digits(cursor)?;
        sign(cursor, Sign::Close)?;
        return Ok(ColumnType::Varchar(length));
    }
    if next_is(cursor, Keyword::Date) {
        word(cursor, Keyword::Date)?;
        return Ok(ColumnType::Date);
    }
    word(cursor, Keyword::Timestamp)?;
    sign(cursor, Sign::Open)?;
    six(cursor)?;
    sign(cursor, Sign::Close)?;
    word(cursor, Keyword::Generated)?;
    word(cursor, Keyword::Always)?;
    word(cursor, Keyword::As)?;
    word(cursor, Keyword::Row)?;
    if next_is(cursor, Keyword::Start) {
        word(cursor, Keyword::Start)?;
        Ok(ColumnType::RowStart)
    } else {
        word(cursor, Keyword::End)?;
        Ok(ColumnType::RowEnd)
    }
}

#[tactic(auto, unfolding(crate::specs::Schemas::column))]
fn column<'a>(cursor: &mut Cursor<'_, 'a>) -> Result<Column<'a>, ReadError>
    ensures { Gives (λ x. (column_form x, whats cursor.new.rest.now)) result (column.read (whats cursor.old.rest.now)) }
{
    let name = name(cursor)?;
    let column_type = column_type(cursor)?;
    Ok(Column { name, column_type })
}

/// A column with the comma behind it.
struct ColumnBeforeComma;

impl<'a> Repeated<'a> for ColumnBeforeComma {
    ghost use Rattle.schemasyntax.specs.Schemas.{ColumnForm};

    type Item = Column<'a>;

    ghost Form = { ColumnForm };

    ghost form = { column_form };

    ghost begins = { is_name };

    ghost reads = { column_comma.read };

    fn is_next(cursor: &Cursor<'_, 'a>) -> bool {
        next_is_name(cursor)
    }

    #[tactic(auto, unfolding(crate::specs::Schemas::column_comma))]
    fn read(_alloc: Global, cursor: &mut Cursor<'_, 'a>) -> Result<Column<'a>, ReadError> {
        let column = column(cursor)?;
        sign(cursor, Sign::Comma)?;
        Ok(column)
    }
}

#[tactic(auto, unfolding(crate::specs::Schemas::columns))]
fn columns<'a>(alloc: Global, cursor: &mut Cursor<'_, 'a>) -> Result<Vec<Column<'a>>, ReadError>
    ensures { Gives (λ x. (map column_form x.items, whats cursor.new.rest.now)) result (columns.read (whats cursor.old.rest.now)) }
{
    let first = ColumnBeforeComma::read(alloc, cursor)?;
    row::<ColumnBeforeComma>(alloc, first, cursor)
}

#[tactic(auto, unfolding(crate::specs::Schemas::application_period))]
fn application_period<'a>(cursor: &mut Cursor<'_, 'a>) -> Result<ApplicationPeriod<'a>, ReadError>
    ensures { Gives (λ x. (application_form x, whats cursor.new.rest.now)) result (application_period.read (whats cursor.old.rest.now)) }
{
    word(cursor, Keyword::Period)?;
    word(cursor, Keyword::For)?;
    let period = name(cursor)?;
    sign(cursor, Sign::Open)?;
    let start = name(cursor)?;
    sign(cursor, Sign::Comma)?;
    let end = name(cursor)?;
    sign(cursor, Sign::Close)?;
    Ok(ApplicationPeriod {
        name: period,
        start,
        end,
    })
}

#[tactic(auto, unfolding(crate::specs::Schemas::system_period))]
fn system_period<'a>(cursor: &mut Cursor<'_, 'a>) -> Result<SystemPeriod<'a>, ReadError>
    ensures { Gives (λ x. (system_form x, whats cursor.new.rest.now)) result (system_period.read (whats cursor.old.rest.now)) }
{
    word(cursor, Keyword::Period)?;
    word(cursor, Keyword::For)?;
    word(cursor, Keyword::SystemTime)?;
    sign(cursor, Sign::Open)?;
    let start = name(cursor)?;
    sign(cursor, Sign::Comma)?;
    let end = name(cursor)?;
    sign(cursor, Sign::Close)?;
    Ok(SystemPeriod { start, end })
}

/// Two or more names, of which the last is the period's.
#[tactic(auto, unfolding(crate::specs::Schemas::key_columns))]
fn key_columns<'a>(alloc: Global, cursor: &mut Cursor<'_, 'a>) -> Result<KeyNames<'a>, ReadError>
    ensures { Gives (λ x. (key_names_form x, whats cursor.new.rest.now)) result (key_columns.read (whats cursor.old.rest.now)) }
{
    let mut columns = Vec::new(alloc);
    let first = name(cursor)?;
    columns.push(first)?;
    sign(cursor, Sign::Comma)?;
    let second = name(cursor)?;
    columns.push(second)?;
    more::<AnotherName>(alloc, &mut columns, cursor)?;
    let period = columns.pop().unwrap();
    Ok(KeyNames { columns, period })
}

#[tactic(auto, unfolding(crate::specs::Schemas::key))]
fn key<'a>(alloc: Global, cursor: &mut Cursor<'_, 'a>) -> Result<KeyNames<'a>, ReadError>
    ensures { Gives (λ x. (key_names_form x, whats cursor.new.rest.now)) result (key.read (whats cursor.old.rest.now)) }
{
    word(cursor, Keyword::Primary)?;
    word(cursor, Keyword::Key)?;
    sign(cursor, Sign::Open)?;
    let names = key_columns(alloc, cursor)?;
    word(cursor, Keyword::Without)?;
    word(cursor, Keyword::Overlaps)?;
    sign(cursor, Sign::Close)?;
    Ok(names)
}

/// A name with the comma behind it.
struct NameBeforeComma;

impl<'a> Repeated<'a> for NameBeforeComma {
    ghost use Rattle.namesyntax.specs.Names.{Bytes};

    type Item = Name<'a>;

    ghost Form = { Bytes };

    ghost form = { name_of };

    ghost begins = { is_name };

    ghost reads = { name_comma.read };

    fn is_next(cursor: &Cursor<'_, 'a>) -> bool {
        next_is_name(cursor)
    }

    #[tactic(auto, unfolding(crate::specs::Schemas::name_comma))]
    fn read(_alloc: Global, cursor: &mut Cursor<'_, 'a>) -> Result<Name<'a>, ReadError> {
        let name = name(cursor)?;
        sign(cursor, Sign::Comma)?;
        Ok(name)
    }
}

#[tactic(auto, unfolding(crate::specs::Schemas::names_comma))]
fn names_comma<'a>(alloc: Global, cursor: &mut Cursor<'_, 'a>) -> Result<Vec<Name<'a>>, ReadError>
    ensures { Gives (λ x. (names_of x.items, whats cursor.new.rest.now)) result (names_comma.read (whats cursor.old.rest.now)) }
{
    let first = NameBeforeComma::read(alloc, cursor)?;
    row::<NameBeforeComma>(alloc, first, cursor)
}

#[tactic(auto, unfolding(crate::specs::Schemas::key_names))]
fn key_names<'a>(alloc: Global, cursor: &mut Cursor<'_, 'a>) -> Result<KeyNames<'a>, ReadError>
    ensures { Gives (λ x. (key_names_form x, whats cursor.new.rest.now)) result (key_names.read (whats cursor.old.rest.now)) }
{
    sign(cursor, Sign::Open)?;
    let columns = names_comma(alloc, cursor)?;
    word(cursor, Keyword::Period)?;
    let period = name(cursor)?;
    sign(cursor, Sign::Close)?;
    Ok(KeyNames { columns, period })
}

#[tactic(auto, unfolding(crate::specs::Schemas::reference))]
fn reference<'a>(alloc: Global, cursor: &mut Cursor<'_, 'a>) -> Result<ForeignKey<'a>, ReadError>
    ensures { Gives (λ x. (reference_form x, whats cursor.new.rest.now)) result (reference.read (whats cursor.old.rest.now)) }
{
    word(cursor, Keyword::Foreign)?;
    word(cursor, Keyword::Key)?;
    let names = key_names(alloc, cursor)?;
    word(cursor, Keyword::References)?;
    let parent = name(cursor)?;
    let parent_names = key_names(alloc, cursor)?;
    Ok(ForeignKey {
        names,
        parent,
        parent_names,
    })
}

/// A foreign key with a comma before it.
struct AnotherReference;

impl<'a> Repeated<'a> for AnotherReference {
    ghost use Rattle.sqltokens.specs.declared.token.Sign.TheVariants.{Comma};
    ghost use Rattle.schemasyntax.specs.Schemas.{ReferenceForm};

    type Item = ForeignKey<'a>;

    ghost Form = { ReferenceForm };

    ghost form = { reference_form };

    ghost begins = { is_symbol Comma };

    ghost reads = { another_reference.read };

    fn is_next(cursor: &Cursor<'_, 'a>) -> bool {
        next_is_sign(cursor, Sign::Comma)
    }

    #[tactic(auto, unfolding(crate::specs::Schemas::another_reference))]
    fn read(alloc: Global, cursor: &mut Cursor<'_, 'a>) -> Result<ForeignKey<'a>, ReadError> {
        sign(cursor, Sign::Comma)?;
        reference(alloc, cursor)
    }
}

#[tactic(auto, unfolding(crate::specs::Schemas::table))]
fn table<'a>(alloc: Global, cursor: &mut Cursor<'_, 'a>) -> Result<Table<'a>, ReadError>
    ensures { Gives (λ x. (table_form x, whats cursor.new.rest.now)) result (table.read (whats cursor.old.rest.now)) }
{
    word(cursor, Keyword::Create)?;
    word(cursor, Keyword::Table)?;
    let name = name(cursor)?;
    sign(cursor, Sign::Open)?;
    let columns = columns(alloc, cursor)?;
    let application_period = application_period(cursor)?;
    sign(cursor, Sign::Comma)?;
    let system_period = system_period(cursor)?;
    sign(cursor, Sign::Comma)?;
    let key = key(alloc, cursor)?;
    let mut foreign_keys = Vec::new(alloc);
    more::<AnotherReference>(alloc, &mut foreign_keys, cursor)?;
    sign(cursor, Sign::Close)?;
    word(cursor, Keyword::With)?;
    word(cursor, Keyword::System)?;
    word(cursor, Keyword::Versioning)?;
    sign(cursor, Sign::Semicolon)?;
    Ok(Table {
        name,
        columns,
        application_period,
        system_period,
        key,
        foreign_keys,
    })
}

/// A further table.
struct AnotherTable;

impl<'a> Repeated<'a> for AnotherTable {
    ghost use Rattle.sqltokens.specs.declared.token.Keyword.TheVariants as keyword;
    ghost use Rattle.schemasyntax.specs.Schemas.{TableForm};

    type Item = Table<'a>;

    ghost Form = { TableForm };

    ghost form = { table_form };

    ghost begins = { is_word keyword.Create };

    ghost reads = { table.read };

    fn is_next(cursor: &Cursor<'_, 'a>) -> bool {
        next_is(cursor, Keyword::Create)
    }

    fn read(alloc: Global, cursor: &mut Cursor<'_, 'a>) -> Result<Table<'a>, ReadError> {
        table(alloc, cursor)
    }
}

#[tactic(auto, unfolding(crate::specs::Schemas::tables))]
pub(crate) fn tables<'a>(
    alloc: Global,
    cursor: &mut Cursor<'_, 'a>,
) -> Result<Vec<Table<'a>>, ReadError>
    ensures { Gives (λ x. (map table_form x.items, whats cursor.new.rest.now)) result (tables.read (whats cursor.old.rest.now)) }
{
    let first = table(alloc, cursor)?;
    row::<AnotherTable>(alloc, first, cursor)
}
