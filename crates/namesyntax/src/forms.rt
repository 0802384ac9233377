//! Names as texts write them.
ghost use Rattle.std.specs.Prelude.{◌≡◌, true};
ghost use Rattle.namesyntax.specs.Words.{is_name_text};

/// A name as the source has it: a letter and then letters, digits and underscores, at most 32 bytes.
#[derive(Clone, Copy)]
pub struct Name<'a> {
    pub written: &'a str,
    pub ghost word: { is_name_text written.now ≡ true },
}
