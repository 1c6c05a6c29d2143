//! The whole program.

ghost use Rattle.std.specs.Prelude.{◌≡◌, ◌≤◌, map, IfOk, OnErr};
ghost use Rattle.std.specs.String.{string_bytes};
ghost use Rattle.pb_renew_store.specs.Deeds.{DidNothing};
ghost use Rattle.pabble_renew.specs.Asked.{asked, asked_by};
ghost use Rattle.pabble_renew.specs.Endings.{Answers, AnswersTo};

use crate::bodies::tell_done;
use crate::ending::Ending;
use crate::fault::Fault;
use crate::help::help;
use crate::line::{NO_MEMORY, line_of};
use crate::renewing::renew_file;
use crate::request::{Request, read_request};
use pb_cli_status::Status;
use pb_io::{Folder, Sink, write_all};
use pb_renew_store::Store;
use pb_text::NoMemory;
use std::alloc::Global;

/// Does what the words behind the program's name say, or tells that there was no memory for them.
///
/// In the store OUT gets the C text of the protocol in FILE, with each body of the old OUT that still has a function, and default
/// bodies for new functions; the other bodies go to OUT.left, behind what is there. `Done` comes only then, or, with `--dry-run`, where
/// nothing was written: each body of the old OUT stands, byte for byte, in the new one or in OUT.left. After each other ending both are
/// as they were; but after `WriteFault` OUT.left may have more.
///
/// One line to `told` says why OUT isn't renewed, and others help; after `Done` they tell which functions are new, which bodies
/// are left, and of what the compiler warns. That `told` can't be written is not told. The files are looked at once more in
/// `again`, to be told of.
pub fn respond<S: Store, F: Folder, T: Sink>(
    alloc: Global,
    words: Result<Vec<String>, NoMemory>,
    store: &mut S,
    folder: &mut F,
    again: &mut F,
    told: &mut T,
) -> Ending
    ensures answers { IfOk words (λ words. AnswersTo (asked (map string_bytes words.items)) result (record { store = S.holds store.old; folder = F.holds folder.old; failed = S.faults store.old; failed_now = S.faults store.new; unread = F.faults folder.old; unread_now = F.faults folder.new }) (S.deeds store.old) (S.deeds store.new) (S.holds store.new)) }
    ensures wanting { OnErr words ((result ≡ Ending.Ended Status.NoMemory) × DidNothing (S.deeds store.old) (S.deeds store.new) (S.holds store.old) (S.holds store.new)) }
    ensures later { S.faults store.old ≤ S.faults store.new }
{
    match words {
        Ok(words) => answer(alloc, &words, store, folder, again, told),
        Err(NoMemory) => {
            tell(told, NO_MEMORY);
            Ending::Ended(Status::NoMemory)
        }
    }
}

/// Does what words say.
fn answer<S: Store, F: Folder, T: Sink>(
    alloc: Global,
    words: &[String],
    store: &mut S,
    folder: &mut F,
    again: &mut F,
    told: &mut T,
) -> Ending
    ensures answers { AnswersTo (asked (map string_bytes words.now)) result (record { store = S.holds store.old; folder = F.holds folder.old; failed = S.faults store.old; failed_now = S.faults store.new; unread = F.faults folder.old; unread_now = F.faults folder.new }) (S.deeds store.old) (S.deeds store.new) (S.holds store.new) }
    ensures later { S.faults store.old ≤ S.faults store.new }
{
    match read_request(words) {
        Some(request) => perform(alloc, &request, store, folder, again, told),
        None => {
            tell_line(alloc, Fault::Usage, told);
            Ending::Ended(Status::Usage)
        }
    }
}

/// Renews a text, and tells what came of it.
fn perform<S: Store, F: Folder, T: Sink>(
    alloc: Global,
    request: &Request<'_>,
    store: &mut S,
    folder: &mut F,
    again: &mut F,
    told: &mut T,
) -> Ending
    ensures answers { Answers result (asked_by request.now) (record { store = S.holds store.old; folder = F.holds folder.old; failed = S.faults store.old; failed_now = S.faults store.new; unread = F.faults folder.old; unread_now = F.faults folder.new }) (S.deeds store.old) (S.deeds store.new) (S.holds store.new) }
    ensures later { S.faults store.old ≤ S.faults store.new }
{
    match renew_file(alloc, store, folder, request) {
        Ok(renewal) => {
            tell_done(alloc, request, &renewal, store, again, told);
            Ending::Ended(Status::Done)
        }
        Err(fault) => {
            tell_line(alloc, fault, told);
            help(alloc, fault, request, store, again, told);
            fault.ending()
        }
    }
}

/// Writes the line of a fault.
fn tell_line<T: Sink>(alloc: Global, fault: Fault, told: &mut T) {
    match line_of(alloc, fault) {
        Ok(line) => tell(told, &line),
        Err(NoMemory) => tell(told, NO_MEMORY),
    }
}

/// Writes bytes where that can be done.
fn tell<T: Sink>(told: &mut T, bytes: &[u8]) {
    let _written = write_all(told, bytes);
}
