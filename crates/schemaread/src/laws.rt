//! The law of what texts say.
ghost use Rattle.schemaread.specs.Laws.{SaysSchema, SaysOneSchema, IsBoundedSchema};

/// `read_schema` answers by the grammar of schemas and the checks of CREATE TABLE statements, and two answers to one
/// text, memory aside, are the same.
pub fn schema_says()
    ensures says { SaysSchema }
    ensures bounded { IsBoundedSchema }
    ensures one { SaysOneSchema }
{
    schemasyntax::laws::forms_told();
}
