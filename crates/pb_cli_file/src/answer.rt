/// What is written of an accepted protocol file.
#[derive(Clone, Copy)]
pub enum Wanted {
    /// The line `accepted`.
    Verdict,
    /// The C text of the protocol, with default bodies.
    Text,
    /// The layout of its endpoint program.
    Layout,
}

/// What is written where all is done.
#[derive(Drop)]
pub enum Answer {
    /// The line `accepted`.
    Accepted,
    /// A text that was made.
    Text(Vec<u8>),
}

impl Answer {
    ghost use Rattle.std.specs.Prelude.{◌≡◌};
    ghost use Rattle.pb_cli_file.specs.Files.{bytes_of};

    /// The bytes that it has.
    pub fn bytes(&self) -> &[u8]
        ensures { result.now ≡ bytes_of self.now }
    {
        match self {
            Answer::Accepted => b"accepted\n",
            Answer::Text(text) => text,
        }
    }
}
