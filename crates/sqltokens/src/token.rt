//! What a text is made of.
ghost use Rattle.std.specs.Prelude.{◌≡◌, ◌<◌, true, length};
ghost use Rattle.std.specs.Char.{is_ascii_digit};
ghost use Rattle.std.specs.List.{list_all};
ghost use Rattle.std.specs.Str.{IsAscii};

/// A reserved word, which is no name.
#[derive(Clone, Copy, Debug, PartialEq, Eq)]
pub enum Keyword {
    Always,
    And,
    As,
    Between,
    Contains,
    Create,
    Date,
    Delete,
    End,
    Equals,
    For,
    Foreign,
    From,
    Generated,
    Immediately,
    Insert,
    Integer,
    Into,
    Key,
    Of,
    Overlaps,
    Period,
    Portion,
    Precedes,
    Primary,
    References,
    Row,
    Select,
    Set,
    Start,
    Succeeds,
    System,
    SystemTime,
    Table,
    Timestamp,
    To,
    Update,
    Values,
    Varchar,
    Versioning,
    Where,
    With,
    Without,
}

/// A sign.
#[derive(Clone, Copy, Debug, PartialEq, Eq)]
pub enum Sign {
    Open,
    Close,
    Comma,
    Semicolon,
    Star,
    Equal,
    NotEqual,
    Less,
    LessEqual,
    Greater,
    GreaterEqual,
    Plus,
    Minus,
}

/// One or more decimal digits, as the source has them.
#[derive(Clone, Copy, Debug)]
pub struct Digits<'a> {
    pub digits: &'a str,
    pub ghost some: { 0 < length digits.now },
    pub ghost all_digits: { list_all is_ascii_digit digits.now ≡ true },
}

/// What stands between the quotes of a text in the source, where each quote is doubled.
#[derive(Clone, Copy, Debug)]
pub struct Quoted<'a> {
    pub source: &'a str,
    pub ghost ascii: { IsAscii source.now },
}

/// What a token is. The bytes of a name are those of the source.
#[derive(Clone, Copy, Debug)]
pub enum Kind<'a> {
    Keyword(Keyword),
    Sign(Sign),
    Name(&'a [u8]),
    Digits(Digits<'a>),
    Text(Quoted<'a>),
    /// A byte that begins no token.
    Stray,
}

/// A token, and where it begins.
#[derive(Clone, Copy, Debug)]
pub struct Token<'a> {
    pub kind: Kind<'a>,
    pub at: usize,
}

/// How each keyword is written.
pub const KEYWORDS: [(&[u8], Keyword); 43] = [
    (b"ALWAYS", Keyword::Always),
    (b"AND", Keyword::And),
    (b"AS", Keyword::As),
    (b"BETWEEN", Keyword::Between),
    (b"CONTAINS", Keyword::Contains),
    (b"CREATE", Keyword::Create),
    (b"DATE", Keyword::Date),
    (b"DELETE", Keyword::Delete),
    (b"END", Keyword::End),
    (b"EQUALS", Keyword::Equals),
    (b"FOR", Keyword::For),
    (b"FOREIGN", Keyword::Foreign),
    (b"FROM", Keyword::From),
    (b"GENERATED", Keyword::Generated),
    (b"IMMEDIATELY", Keyword::Immediately),
    (b"INSERT", Keyword::Insert),
    (b"INTEGER", Keyword::Integer),
    (b"INTO", Keyword::Into),
    (b"KEY", Keyword::Key),
    (b"OF", Keyword::Of),
    (b"OVERLAPS", Keyword::Overlaps),
    (b"PERIOD", Keyword::Period),
    (b"PORTION", Keyword::Portion),
    (b"PRECEDES", Keyword::Precedes),
    (b"PRIMARY", Keyword::Primary),
    (b"REFERENCES", Keyword::References),
    (b"ROW", Keyword::Row),
    (b"SELECT", Keyword::Select),
    (b"SET", Keyword::Set),
    (b"START", Keyword::Start),
    (b"SUCCEEDS", Keyword::Succeeds),
    (b"SYSTEM", Keyword::System),
    (b"SYSTEM_TIME", Keyword::SystemTime),
    (b"TABLE", Keyword::Table),
    (b"TIMESTAMP", Keyword::Timestamp),
    (b"TO", Keyword::To),
    (b"UPDATE", Keyword::Update),
    (b"VALUES", Keyword::Values),
    (b"VARCHAR", Keyword::Varchar),
    (b"VERSIONING", Keyword::Versioning),
    (b"WHERE", Keyword::Where),
    (b"WITH", Keyword::With),
    (b"WITHOUT", Keyword::Without),
];
