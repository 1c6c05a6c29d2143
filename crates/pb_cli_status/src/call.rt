//! What is wrong with the calls of subprotocols.

ghost use Rattle.std.specs.Prelude.{◌≡◌};
ghost use Rattle.pb_cli_status.specs.Lines.{call_words};

/// What is wrong with a subprotocol, or with a call of one.
#[derive(Clone, Copy, Debug)]
pub enum CallWrong {
    /// A subprotocol has the name of an earlier one, or a parameter that of an earlier one beside it.
    Twice,
    /// There is no subprotocol with the name in a call.
    Unknown,
    /// A call has another number of arguments than its subprotocol has parameters.
    Arity,
    /// A name in a subprotocol is no parameter of it, a loop that is continued isn't around there, or an argument in the protocol is
    /// no role.
    Stranger,
    /// A subprotocol that is called reaches the one that the call stands in.
    Cycle,
}

/// The words of the status line.
pub(crate) fn call_words(wrong: CallWrong) -> &'static [u8]
    ensures { result.now ≡ call_words wrong }
{
    match wrong {
        CallWrong::Twice => b"pabble: call twice",
        CallWrong::Unknown => b"pabble: call unknown",
        CallWrong::Arity => b"pabble: call arity",
        CallWrong::Stranger => b"pabble: call stranger",
        CallWrong::Cycle => b"pabble: call cycle",
    }
}
