//! What is wrong with strips.

ghost use Rattle.std.specs.Prelude.{◌≡◌};
ghost use Rattle.pb_cli_status.specs.Lines.{strip_words};

/// What is wrong with a strip, with an end of one, or with a name beside one.
#[derive(Clone, Copy, Debug)]
pub enum StripWrong {
    /// The columns of a strip don't ascend, or go beyond 63.
    Width,
    /// An end of a strip has no column, or another end has one.
    Plain,
    /// The name in a column isn't the variable of the `columns` around.
    Variable,
    /// The column of an end is none of its strip's.
    Column,
    /// A name of the file is that of a column's role.
    Clash,
}

/// The words of the status line.
pub(crate) fn strip_words(wrong: StripWrong) -> &'static [u8]
    ensures { result.now ≡ strip_words wrong }
{
    match wrong {
        StripWrong::Width => b"pabble: strip width",
        StripWrong::Plain => b"pabble: strip plain",
        StripWrong::Variable => b"pabble: strip variable",
        StripWrong::Column => b"pabble: strip column",
        StripWrong::Clash => b"pabble: strip clash",
    }
}
