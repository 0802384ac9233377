//! Forms of outputs.

/// A form of outputs.
#[derive(Clone, Copy, Debug, PartialEq, Eq)]
pub enum Form {
    /// Lines of words.
    Lines,
    /// Answers as tables, for people, and all else as lines.
    Table,
    /// Answers as CSV, and all else as lines beside it.
    Csv,
    /// Each output as a JSON object on a line.
    Json,
}

/// How outputs are shown.
#[derive(Clone, Copy, Debug, PartialEq, Eq)]
pub struct Look {
    pub form: Form,
    /// Whether messages are left out.
    pub is_quiet: bool,
    /// How many columns a table may take; none where it may take any.
    pub width: Option<usize>,
}
