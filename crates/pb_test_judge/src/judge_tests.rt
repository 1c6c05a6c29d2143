use crate::worlds::file_of;
use pb_cli_judge::{Status, judge};
use pb_io::{MemFolder, MemSink, NoMemory};
use std::alloc::Global;

const FIRST: &str = "const N = 2..max;
global protocol P(role W[0..N-1]) {
  A() from W[0] to W[N-1];
}
";

/// A folder with a protocol file and no log.
fn without_log(alloc: Global) -> Result<MemFolder, NoMemory> {
    let mut files = Vec::new(alloc);
    files.push(file_of(alloc, "p", FIRST)?)?;
    Ok(MemFolder::new(files, Vec::new(alloc)))
}

fn are_faults_told(alloc: Global, folder: &mut MemFolder, out: &mut MemSink) -> bool {
    judge(alloc, "q", "l", 2, folder, out) == Status::ReadFault
        && judge(alloc, "p", "l", 2, folder, out) == Status::WriteFault
        && out.taken() == b"pabble: read fault\npabble".as_slice()
}

#[test]
fn tells_faults_of_the_folder_and_the_sink(rt: HostRuntime) -> Result<(), NoMemory> {
    let alloc = rt.alloc();
    let mut folder = without_log(alloc)?;
    let mut out = MemSink::new(alloc, 25, 8192, Vec::new(alloc))?;
    assert!(rt; are_faults_told(alloc, &mut folder, &mut out));
    Ok(())
}
