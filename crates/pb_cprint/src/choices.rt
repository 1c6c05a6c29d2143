//! How the branch of a choice is chosen and told.

ghost use Rattle.std.specs.Prelude.{◌≡◌, ◌++◌, ◌+◌, ◌<◌, ◌^◌, OnOk};
ghost use Rattle.pb_local.specs.Tree.{program_of};
ghost use Rattle.pb_cprint.specs.Written.{relay_written, last_relay, first_relay, relays_written, probes_written, first_test, test_written, tests_written, tests_all, abort_written, told_open, told_end, told_some, told_written, choice_open, choice_written};

use pb_cprint_lines::{
    push_chooses, push_else_if, push_else_test_line, push_if, push_picks, push_probe,
    push_test_line, push_word,
};
use pb_ctree::{Guard, Local, NoMemory, Peer, Relay, Test};

#[tactic(auto, unfolding(crate::specs::Written::relay_written))]
fn push_relay(local: &Local, out: &mut Vec<u8>, depth: usize, relay: &Relay) -> Result<(), NoMemory>
    requires { depth + 1 < 2 ^ 64 }
    ensures { OnOk result (out.new.items ≡ out.old.items ++ relay_written (program_of local.now) depth relay.now) }
{
    push_else_if(local, out, depth, relay.guards.list())?;
    push_probe(local, out, depth + 1, relay.from)
}

#[tactic(auto, unfolding(crate::specs::Written::first_relay))]
fn push_first_relay(
    local: &Local,
    out: &mut Vec<u8>,
    depth: usize,
    relay: &Relay,
) -> Result<(), NoMemory>
    requires { depth + 1 < 2 ^ 64 }
    ensures { OnOk result (out.new.items ≡ out.old.items ++ first_relay (program_of local.now) depth relay.now) }
{
    push_if(local, out, depth, relay.guards.list())?;
    push_probe(local, out, depth + 1, relay.from)
}

#[tactic(auto, unfolding(crate::specs::Written::last_relay))]
fn push_last_relay(
    local: &Local,
    out: &mut Vec<u8>,
    depth: usize,
    from: Peer,
) -> Result<(), NoMemory>
    requires { depth + 1 < 2 ^ 64 }
    ensures { OnOk result (out.new.items ≡ out.old.items ++ last_relay (program_of local.now) depth from) }
{
    push_word(out, depth, b"} else {")?;
    push_probe(local, out, depth + 1, from)?;
    push_word(out, depth, b"}")
}

fn push_relays(
    local: &Local,
    out: &mut Vec<u8>,
    depth: usize,
    relays: &[Relay],
    from: Peer,
) -> Result<(), NoMemory>
    requires { depth + 1 < 2 ^ 64 }
    ensures { OnOk result (out.new.items ≡ out.old.items ++ relays_written (program_of local.now) depth relays.now from) }
{
    for relay in relays {
        push_relay(local, out, depth, relay)?;
    }
    push_last_relay(local, out, depth, from)
}

fn push_probes(
    local: &Local,
    out: &mut Vec<u8>,
    depth: usize,
    relays: &[Relay],
    from: Peer,
) -> Result<(), NoMemory>
    requires { depth + 1 < 2 ^ 64 }
    ensures { OnOk result (out.new.items ≡ out.old.items ++ probes_written (program_of local.now) depth relays.now from) }
{
    match relays {
        [] => push_probe(local, out, depth, from),
        [first, others @ ..] => {
            push_first_relay(local, out, depth, first)?;
            push_relays(local, out, depth, others, from)
        }
    }
}

#[tactic(auto, unfolding(crate::specs::Written::first_test))]
fn push_first_test(
    local: &Local,
    out: &mut Vec<u8>,
    depth: usize,
    test: &Test,
) -> Result<(), NoMemory>
    requires { depth + 1 < 2 ^ 64 }
    ensures { OnOk result (out.new.items ≡ out.old.items ++ first_test (program_of local.now) depth test.now) }
{
    push_test_line(local, out, depth, test.label, test.guards.list())?;
    push_picks(local, out, depth + 1, test.branch)
}

#[tactic(auto, unfolding(crate::specs::Written::test_written))]
fn push_next_test(
    local: &Local,
    out: &mut Vec<u8>,
    depth: usize,
    test: &Test,
) -> Result<(), NoMemory>
    requires { depth + 1 < 2 ^ 64 }
    ensures { OnOk result (out.new.items ≡ out.old.items ++ test_written (program_of local.now) depth test.now) }
{
    push_else_test_line(local, out, depth, test.label, test.guards.list())?;
    push_picks(local, out, depth + 1, test.branch)
}

fn push_next_tests(
    local: &Local,
    out: &mut Vec<u8>,
    depth: usize,
    tests: &[Test],
) -> Result<(), NoMemory>
    requires { depth + 1 < 2 ^ 64 }
    ensures { OnOk result (out.new.items ≡ out.old.items ++ tests_written (program_of local.now) depth tests.now) }
{
    for test in tests {
        push_next_test(local, out, depth, test)?;
    }
    Ok(())
}

#[tactic(auto, unfolding(crate::specs::Written::tests_all))]
fn push_tests(
    local: &Local,
    out: &mut Vec<u8>,
    depth: usize,
    first: &Test,
    others: &[Test],
) -> Result<(), NoMemory>
    requires { depth + 1 < 2 ^ 64 }
    ensures { OnOk result (out.new.items ≡ out.old.items ++ tests_all (program_of local.now) depth first.now others.now) }
{
    push_first_test(local, out, depth, first)?;
    push_next_tests(local, out, depth, others)
}

#[tactic(auto, unfolding(crate::specs::Written::abort_written))]
fn push_abort(local: &Local, out: &mut Vec<u8>, depth: usize) -> Result<(), NoMemory>
    requires { depth + 1 < 2 ^ 64 }
    ensures { OnOk result (out.new.items ≡ out.old.items ++ abort_written (program_of local.now) depth) }
{
    push_word(out, depth, b"} else {")?;
    push_word(out, depth + 1, b"MPI_Abort(MPI_COMM_WORLD, 3);")?;
    push_word(out, depth, b"}")
}

#[tactic(auto, unfolding(crate::specs::Written::told_open))]
fn push_told_open(
    local: &Local,
    out: &mut Vec<u8>,
    depth: usize,
    relays: &[Relay],
    from: Peer,
) -> Result<(), NoMemory>
    requires { depth + 2 < 2 ^ 64 }
    ensures { OnOk result (out.new.items ≡ out.old.items ++ told_open (program_of local.now) depth relays.now from) }
{
    push_word(out, depth, b"} else {")?;
    push_probes(local, out, depth + 1, relays, from)
}

#[tactic(auto, unfolding(crate::specs::Written::told_end))]
fn push_told_end(local: &Local, out: &mut Vec<u8>, depth: usize) -> Result<(), NoMemory>
    requires { depth + 2 < 2 ^ 64 }
    ensures { OnOk result (out.new.items ≡ out.old.items ++ told_end (program_of local.now) depth) }
{
    push_abort(local, out, depth + 1)?;
    push_word(out, depth, b"}")
}

#[tactic(auto, unfolding(crate::specs::Written::told_some))]
fn push_told_some(
    local: &Local,
    out: &mut Vec<u8>,
    depth: usize,
    relays: &[Relay],
    from: Peer,
    first: &Test,
    others: &[Test],
) -> Result<(), NoMemory>
    requires { depth + 2 < 2 ^ 64 }
    ensures { OnOk result (out.new.items ≡ out.old.items ++ told_some (program_of local.now) depth relays.now from first.now others.now) }
{
    push_told_open(local, out, depth, relays, from)?;
    push_tests(local, out, depth + 1, first, others)?;
    push_told_end(local, out, depth)
}

/// Appends how the branch of a choice is told to the ranks that don't choose it.
pub fn push_told(
    local: &Local,
    out: &mut Vec<u8>,
    depth: usize,
    relays: &[Relay],
    from: Peer,
    tests: &[Test],
) -> Result<(), NoMemory>
    requires { depth + 2 < 2 ^ 64 }
    ensures { OnOk result (out.new.items ≡ out.old.items ++ told_written (program_of local.now) depth relays.now from tests.now) }
{
    match tests {
        [] => push_word(out, depth, b"}"),
        [first, others @ ..] => push_told_some(local, out, depth, relays, from, first, others),
    }
}

#[tactic(auto, unfolding(crate::specs::Written::choice_open))]
fn push_choice_open(
    local: &Local,
    out: &mut Vec<u8>,
    depth: usize,
    who: Guard,
    kernel: u32,
) -> Result<(), NoMemory>
    requires { depth + 1 < 2 ^ 64 }
    ensures { OnOk result (out.new.items ≡ out.old.items ++ choice_open (program_of local.now) depth who kernel) }
{
    push_if(local, out, depth, &[who])?;
    push_chooses(local, out, depth + 1, kernel)
}

/// Appends what stands before the branches of a choice.
#[tactic(auto, unfolding(crate::specs::Written::choice_written))]
pub fn push_choice(
    local: &Local,
    out: &mut Vec<u8>,
    depth: usize,
    who: Guard,
    kernel: u32,
    relays: &[Relay],
    from: Peer,
    tests: &[Test],
) -> Result<(), NoMemory>
    requires { depth + 2 < 2 ^ 64 }
    ensures { OnOk result (out.new.items ≡ out.old.items ++ choice_written (program_of local.now) depth who kernel relays.now from tests.now) }
{
    push_choice_open(local, out, depth, who, kernel)?;
    push_told(local, out, depth, relays, from, tests)
}
