use crate::lines::told_within;
use pb_cli_cost::Status;
use pb_text::NoMemory;
use std::alloc::Global;

/// Whether just this front is written of a file where there is room for no more.
fn is_cut(alloc: Global, file: &str, front: &str) -> Result<bool, NoMemory> {
    let told = told_within(alloc, file, front.len())?;
    Ok(told.status == Status::WriteFault && told.lines.as_str() == front)
}

#[test]
fn tells_a_front_where_the_sink_fails(rt: HostRuntime) {
    let file = "const N = 2..max;\nglobal protocol P(role W[0..N-1]) {\n}\n";
    assert!(rt; is_cut(rt.alloc(), file, "least mess") == Ok(true));
}
