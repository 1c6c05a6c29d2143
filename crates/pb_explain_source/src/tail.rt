ghost use Rattle.std.specs.Prelude.{◌≡◌};
ghost use Rattle.pb_explain_source.specs.Pages.{after_byte, after_blank, after_colon, after_digit, after_word};

/// What a page ends with, as far as it may come to tell a place.
#[derive(Clone, Copy)]
pub enum Tail {
    /// Nothing that a place begins with.
    Other,
    /// `:`
    Colon,
    /// `:3`
    Line,
    /// `:3:`
    LineColon,
    /// `:3:14`
    Column,
    /// `:3:14:`
    Full,
    /// A line of the file, or its front.
    Quoted,
}

impl Tail {
    fn after_colon(self) -> Tail
        ensures { result ≡ after_colon self }
    {
        match self {
            Tail::Other | Tail::Colon | Tail::LineColon | Tail::Full => Tail::Colon,
            Tail::Line => Tail::LineColon,
            Tail::Column => Tail::Full,
            Tail::Quoted => Tail::Quoted,
        }
    }

    fn after_digit(self) -> Tail
        ensures { result ≡ after_digit self }
    {
        match self {
            Tail::Other => Tail::Other,
            Tail::Colon | Tail::Line => Tail::Line,
            Tail::LineColon | Tail::Column | Tail::Full => Tail::Column,
            Tail::Quoted => Tail::Quoted,
        }
    }

    fn after_blank(self) -> Option<Tail>
        ensures { result ≡ after_blank self }
    {
        match self {
            Tail::Other | Tail::Colon | Tail::Line | Tail::LineColon | Tail::Column => {
                Some(Tail::Other)
            }
            Tail::Full => None,
            Tail::Quoted => Some(Tail::Quoted),
        }
    }

    fn after_word(self, byte: u8) -> Option<Tail>
        ensures { result ≡ after_word self byte }
    {
        if byte == b':' {
            Some(self.after_colon())
        } else if byte.is_ascii_digit() {
            Some(self.after_digit())
        } else if byte == b' ' {
            self.after_blank()
        } else {
            Some(Tail::Other)
        }
    }

    /// What the page ends with behind one more byte. None where it would tell a place then.
    pub fn after_byte(self, byte: u8) -> Option<Tail>
        ensures { result ≡ after_byte self byte }
    {
        match self {
            Tail::Quoted if byte == b'\n' => Some(Tail::Other),
            Tail::Quoted => Some(Tail::Quoted),
            _ => self.after_word(byte),
        }
    }
}
