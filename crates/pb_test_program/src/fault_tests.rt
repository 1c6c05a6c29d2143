use crate::byte_folder::ByteFolder;
use crate::commands::{
    ALL, Answer, Asked, OF_FILE, PROTOCOL, ROOM, SCHEDULE, done, files, folder_of, one, text_of,
    told,
};
use pb_cli_simulate::Status;
use pb_io::{MemFolder, MemSink};
use pb_text::NoMemory;
use std::alloc::Global;

/// What a command answers where nothing fails.
fn sound(alloc: Global, asked: Asked, text: &[u8]) -> Result<Answer, NoMemory> {
    let mut folder = folder_of(alloc, files(alloc, text)?);
    told(alloc, asked, &mut folder)
}

/// Whether a command ends as it should, and its answer has room.
fn is_done(alloc: Global, asked: Asked, text: &[u8]) -> Result<bool, NoMemory> {
    let whole = sound(alloc, asked, text)?;
    let expected = if asked == Asked::Replay {
        Status::Turns
    } else {
        Status::Done
    };
    Ok(whole.status == expected && whole.bytes.len() < ROOM)
}

#[test]
fn each_command_is_done(rt: HostRuntime) -> Result<(), NoMemory> {
    let text = text_of(rt.alloc(), PROTOCOL)?;
    for asked in ALL {
        assert!(rt; is_done(rt.alloc(), asked, &text) == Ok(true), "{asked:?}");
    }
    Ok(())
}

/// What a command answers over a folder that gives one byte at a time, and whose call with this number fails.
fn byte_by_byte(alloc: Global, asked: Asked, text: &[u8], fails: u64) -> Result<Answer, NoMemory> {
    let fails = [fails].to_vec(alloc)?;
    let mut folder = ByteFolder::new(MemFolder::new(files(alloc, text)?, fails));
    told(alloc, asked, &mut folder)
}

fn is_read_fault(answer: &Answer) -> bool {
    answer.status == Status::ReadFault
        && answer.bytes.as_slice() == b"pabble: read fault\n".as_slice()
}

/// How many calls there are, each of which is a read fault where it fails; none if another answer than this one comes.
fn calls_before(alloc: Global, asked: Asked, whole: &Answer) -> Result<Option<u64>, NoMemory> {
    for fails in 0..1_024 {
        let answer = byte_by_byte(alloc, asked, b"", fails)?;
        if !is_read_fault(&answer) {
            return Ok(if answer == *whole { Some(fails) } else { None });
        }
    }
    Ok(None)
}

fn count_of_calls(alloc: Global, asked: Asked) -> Result<Option<u64>, NoMemory> {
    let whole = sound(alloc, asked, b"")?;
    calls_before(alloc, asked, &whole)
}

#[test]
fn files_that_come_byte_by_byte_fail_at_each_call(rt: HostRuntime) -> Result<(), NoMemory> {
    let least = PROTOCOL.len() as u64 + 1;
    for asked in [Asked::Text, Asked::Merged] {
        let calls = count_of_calls(rt.alloc(), asked)?;
        assert!(rt; calls.is_some_and(|calls| calls > least), "{asked:?}");
    }
    Ok(())
}

/// Whether a command ends so where the call with this number fails, and tells a read fault just where it is one.
fn ends_so(
    alloc: Global,
    asked: Asked,
    text: &[u8],
    fails: u64,
    expected: Status,
) -> Result<bool, NoMemory> {
    let answer = byte_by_byte(alloc, asked, text, fails)?;
    Ok(answer.status == expected && is_read_fault(&answer) == (expected == Status::ReadFault))
}

// A file is opened, each byte is read, and then its end.
#[test]
fn texts_that_come_byte_by_byte_fail_behind_their_end(rt: HostRuntime) -> Result<(), NoMemory> {
    let alloc = rt.alloc();
    let text = text_of(alloc, PROTOCOL)?;
    let last = text.len() as u64 + 1;
    let end = last + SCHEDULE.len() as u64 + 2;
    let fault = Status::ReadFault;
    assert!(rt; ends_so(alloc, Asked::Log, &text, 0, fault) == Ok(true));
    assert!(rt; ends_so(alloc, Asked::Log, &text, last - 1, fault) == Ok(true));
    assert!(rt; ends_so(alloc, Asked::Log, &text, last, fault) == Ok(true));
    assert!(rt; ends_so(alloc, Asked::Log, &text, last + 1, Status::Done) == Ok(true));
    assert!(rt; ends_so(alloc, Asked::Schedule, &text, last, fault) == Ok(true));
    assert!(rt; ends_so(alloc, Asked::Replay, &text, last, fault) == Ok(true));
    assert!(rt; ends_so(alloc, Asked::Replay, &text, last + 1, fault) == Ok(true));
    assert!(rt; ends_so(alloc, Asked::Replay, &text, end, fault) == Ok(true));
    assert!(rt; ends_so(alloc, Asked::Replay, &text, end + 1, Status::Turns) == Ok(true));
    Ok(())
}

/// Whether a command whose sink takes one byte at a time, and fails at the byte with this number, leaves what stands before it.
fn leaves_a_front(
    alloc: Global,
    asked: Asked,
    text: &[u8],
    whole: &[u8],
    place: usize,
) -> Result<bool, NoMemory> {
    let fails = [place as u64].to_vec(alloc)?;
    let mut out = MemSink::new(alloc, ROOM, 1, fails)?;
    let mut folder = folder_of(alloc, files(alloc, text)?);
    let status = done(alloc, asked, &mut folder, &mut out);
    let taken = out.taken();
    Ok(status == Status::WriteFault && taken.len() == place && whole.starts_with(taken))
}

/// Whether a command leaves a front wherever its output fails.
fn leaves_fronts(alloc: Global, asked: Asked, text: &[u8], whole: &[u8]) -> Result<bool, NoMemory> {
    for place in 0..whole.len() {
        if !leaves_a_front(alloc, asked, text, whole, place)? {
            return Ok(false);
        }
    }
    Ok(true)
}

fn leaves_its_fronts(alloc: Global, asked: Asked, text: &[u8]) -> Result<bool, NoMemory> {
    let whole = sound(alloc, asked, text)?;
    leaves_fronts(alloc, asked, text, &whole.bytes)
}

#[test]
fn output_fails_at_each_byte(rt: HostRuntime) -> Result<(), NoMemory> {
    let text = text_of(rt.alloc(), PROTOCOL)?;
    for asked in ALL {
        if asked != Asked::Text {
            assert!(rt;
                leaves_its_fronts(rt.alloc(), asked, &text) == Ok(true),
                "{asked:?}"
            );
        }
    }
    Ok(())
}

/// Whether a command answers a fault of syntax just where the file lacks its brace.
fn is_lacking(
    alloc: Global,
    asked: Asked,
    file: &[u8],
    lacks_brace: bool,
) -> Result<bool, NoMemory> {
    let mut folder = folder_of(alloc, one(alloc, "p", file)?);
    let it = told(alloc, asked, &mut folder)?;
    Ok(
        (it.status == Status::Refused) == lacks_brace
            && it.bytes.starts_with(b"pabble: syntax at ") == lacks_brace,
    )
}

/// The first place at which the protocol may be cut so that a command doesn't answer so.
fn first_stray(alloc: Global, asked: Asked, protocol: &[u8]) -> Result<Option<usize>, NoMemory> {
    for place in 0..protocol.len() {
        let lacks_brace = place + 1 < protocol.len();
        if !is_lacking(alloc, asked, &protocol[..place], lacks_brace)? {
            return Ok(Some(place));
        }
    }
    Ok(None)
}

#[test]
fn a_protocol_lacks_its_end(rt: HostRuntime) {
    for asked in OF_FILE {
        let stray = first_stray(rt.alloc(), asked, PROTOCOL.as_bytes());
        assert!(rt; stray == Ok(None), "{asked:?}");
    }
}
