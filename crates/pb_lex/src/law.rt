ghost use Rattle.pb_text.specs.Tokens.{OneFault, OneText, Readable, TextOrFault};

/// Bytes are a text, with one list of tokens, or have one first lexical fault, and not both.
pub fn one_reading()
    ensures text { OneText }
    ensures fault { OneFault }
    ensures apart { TextOrFault }
    ensures whole { Readable }
{}
