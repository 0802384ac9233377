//! The form of a store: how many members it has, and its tables.
ghost use Rattle.std.specs.Prelude.{◌≡◌, ◌≢◌, ◌⊎◌, ◌<◌, ◌^◌, ℕ, List, IfOk, IfErr, string_bytes};
ghost use Rattle.fault.specs.declared.refusal.Refusal.TheVariants.{NoMemory};
ghost use Rattle.flight.specs.Reading.{Spells, SpellsOnly, IsUnread};
ghost use Rattle.schemaread.specs.Schemas.{SchemaSays};
ghost use Rattle.sqlchecks.specs.Columns.{Tables};
ghost use Rattle.storefolder.specs.Forms.{IsForm, IsMany, IsRefusedForm, form_text, members_text, parts_text, version_text};

use crate::faults::no_store;
use fault::{Refusal, Text};
use flight::parts::{past, read_block, read_number};
use journal::blocks::{FIRST_SUM, sum_after};
use model::member::Member;
use schema::Schema;
use schemaread::laws::schema_says;
use schemaread::schemas::read_schema;
use std::alloc::{AllocError, Global};
use store::StoreRefusal;

// The version of forms that are written and read.
const VERSION: u64 = 1;

/// What the form of a store says.
#[derive(Drop)]
pub struct Form {
    /// Its text.
    pub text: String,
    /// How many members there are, 3 to 7.
    pub members: Member,
    /// The text of the tables.
    pub schema_text: Text,
    pub schema: Schema,
}

// How many members there are, and what follows.
fn read_members(text: &str) -> Result<(Member, &str), Refusal>
    ensures ok { IfOk result (λ p. Spells IsMany members_text text.now p.0 p.1.now) }
    ensures only { IfOk result (λ p. SpellsOnly IsMany members_text text.now p.0 p.1.now) }
    ensures err { IfErr result (IsUnread IsMany members_text text.now) }
{
    let rest = past(text, "members ")?;
    let (members, rest) = read_number(rest, '\n')?;
    if members < 3 || members > 7 {
        return Err(Refusal::BadFlight);
    }
    Ok((members as usize, rest))
}

// How many members there are, and the text of the tables, of a text that ends behind them.
fn read_parts(alloc: Global, text: &str) -> Result<(Member, Text), Refusal>
    ensures ok { IfOk result (λ p. IsMany p.0 × (text.now ≡ parts_text p.0 p.1)) }
    ensures only { IfOk result (λ p. (members : ℕ) (schema : List ℕ) → IsMany members → text.now ≡ parts_text members schema → (members ≡ p.0) × (schema ≡ p.1)) }
    ensures err { IfErr result (λ r. (r ≡ NoMemory) ⊎ ((members : ℕ) (schema : List ℕ) → IsMany members → text.now ≢ parts_text members schema)) }
{
    let (members, rest) = read_members(text)?;
    let rest = past(rest, "schema ")?;
    let (schema, rest) = read_block(alloc, rest)?;
    if rest != "end\n" {
        return Err(Refusal::BadFlight);
    }
    Ok((members, schema))
}

// The tables that a text declares.
fn read_tables(alloc: Global, text: &str) -> Result<Schema, Refusal>
    ensures ok { IfOk result (λ tables. SchemaSays text.now (Ok tables)) }
    ensures err { IfErr result (λ r. (r ≡ NoMemory) ⊎ ((tables : Tables) → ¬ SchemaSays text.now (Ok tables))) }
{
    schema_says();
    match read_schema(alloc, text) {
        Ok(schema) => Ok(schema),
        Err(Refusal::NoMemory) => Err(Refusal::NoMemory),
        Err(_) => Err(Refusal::BadFlight),
    }
}

// A refusal of a part: want of memory, or this is no form.
fn refusal_of(refusal: Refusal) -> StoreRefusal
    ensures memory { refusal ≡ NoMemory → result ≡ StoreRefusal.Refused NoMemory }
    ensures other { (result ≡ StoreRefusal.NoStore) ⊎ (result ≡ StoreRefusal.Refused NoMemory) }
{
    match refusal {
        Refusal::NoMemory => StoreRefusal::Refused(Refusal::NoMemory),
        _ => no_store(),
    }
}

// What follows the first line. 46 where that is none, 47 where it names another version.
#[tactic(auto, using(crate::proofs::Forms::not_begun, crate::proofs::Forms::not_numbered))]
fn past_version(text: &str) -> Result<&str, StoreRefusal>
    ensures ok { IfOk result (λ rest. text.now ≡ version_text 1 rest.now) }
    ensures only { IfOk result (λ rest. (version : ℕ) (other : List ℕ) → version < 2 ^ 64 → text.now ≡ version_text version other → (version ≡ 1) × (other ≡ rest.now)) }
    ensures err { IfErr result (IsRefusedForm text.now) }
{
    let Ok(rest) = past(text, "bitable store ") else {
        return Err(no_store());
    };
    let Ok((version, rest)) = read_number(rest, '\n') else {
        return Err(no_store());
    };
    if version != VERSION {
        return Err(StoreRefusal::Version(version));
    }
    Ok(rest)
}

/// What the text of a form says, which is the one that `text_of_form` gives for it. 47 where it names another version, 46 where it is no
/// form, 43 for want of memory.
pub fn read_form(alloc: Global, text: String) -> Result<Form, StoreRefusal>
    ensures text { IfOk result (λ form. form.text ≡ text) }
    ensures ok { IfOk result (λ form. IsForm (string_bytes text) form.members form.schema_text form.schema) }
    ensures err { IfErr result (IsRefusedForm (string_bytes text)) }
{
    let rest = past_version(text.as_str())?;
    let (members, schema_text) = match read_parts(alloc, rest) {
        Ok(parts) => parts,
        Err(refusal) => return Err(refusal_of(refusal)),
    };
    match read_tables(alloc, schema_text.as_str()) {
        Ok(schema) => Ok(Form {
            text,
            members,
            schema_text,
            schema,
        }),
        Err(refusal) => Err(refusal_of(refusal)),
    }
}

/// The text of a form: its one spelling. The error is want of memory.
pub fn text_of_form(alloc: Global, members: Member, schema: &str) -> Result<String, AllocError>
    ensures { IfOk result (λ text. string_bytes text ≡ form_text members schema.now) }
{
    let length = schema.len();
    format!(in alloc;
        "bitable store {VERSION}\nmembers {members}\nschema {length}\n{schema}\nend\n"
    )
}

impl Form {
    /// The sum that the first journal goes on from: that of the form's text.
    pub(crate) fn sum(&self) -> u64 {
        sum_after(FIRST_SUM, self.text.as_bytes())
    }
}
