use pb_explain_tree::path_to;
use pb_parse::parse;
use pb_text::{NoMemory, Place};
use std::alloc::Global;

const FILE: &[u8] = b"const N = 2..max; global protocol P(role W[0..N-1]) {
rec X {
barrier;
continue X;
}
}
";

/// Whether no way leads to the ninth line.
fn finds_no_way(alloc: Global) -> Result<bool, NoMemory> {
    match parse(alloc, FILE) {
        Ok(file) => Ok(path_to(alloc, &file.body, Place { line: 9, col: 1 })?.is_empty()),
        Err(_) => Ok(false),
    }
}

#[test]
fn no_way_leads_behind_the_end(rt: HostRuntime) {
    assert!(rt; finds_no_way(rt.alloc()) == Ok(true));
}
