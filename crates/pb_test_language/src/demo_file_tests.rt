use crate::rows::is_printed;
use pb_demo_file::demo_file;
use std::alloc::Global;

/// A statement of each kind, and the first once more.
const TEXT: &str = "const N = 2..max;
global protocol Demo(role W[0..N-1]) {
  A(uint32[4]) from W[i:0..N-2] to W[i+1];
  B() from W[N-1] to W[0];
  compute Tick at W[0];
  allreduce S(uint32[2]) with sum;
  A(uint32[4]) from W[i:0..N-2] to W[i+1];
}
";

fn is_demo(alloc: Global, count: u32, want: &str) -> bool {
    match demo_file(alloc, count) {
        Ok(file) => is_printed(alloc, &file, want),
        Err(_) => false,
    }
}

#[test]
fn five_statements(rt: HostRuntime) {
    assert!(rt; is_demo(rt.alloc(), 5, TEXT));
}
