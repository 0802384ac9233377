//! What the texts of schemas and of queries say, in the short words of `believed`: their parts by names, how they are spelled, what they
//! are checked for in the order of the text, and what they make or ask. The crates below say the same in words of their own, nearer to
//! the code. No function here does anything: its contract says that both come to the same.
#![tactic(auto)]

ghost use Rattle.std.specs.Prelude.{◌↔◌, ℕ, List, Result};
ghost use Rattle.std.specs.Result.{result_map_both};
ghost use Rattle.fault.specs.declared.refusal.Refusal.{Refusal};
ghost use Rattle.sqlchecks.specs.Columns.{Tables};
ghost use Rattle.sqlread.specs.Meaning.{select_of};
ghost use Rattle.sqlread.specs.Texts.{query_in};
ghost use Rattle.schemaread.specs.Schemas.{SchemaSays};
ghost use Rattle.believedsql.specs.Questions.{IsAsking};
ghost use Rattle.believedsql.specs.Schemas.{IsSchema};

/// What schemas say: each text makes tables, or has one refusal, and is read so.
pub fn schemas()
    ensures { (text : List ℕ) (r : Result Tables Refusal) → SchemaSays text r ↔ IsSchema text r }
{
    schemasyntax::laws::forms_told();
}

/// What queries ask: each text is one question over some tables, or has one refusal, and is read so.
pub fn questions()
    ensures { (tables : Tables) → IsAsking tables (λ text. result_map_both select_of (λ refusal. refusal) (query_in tables text)) }
{
    believed::questions();
}
