use crate::lines::{protocol, told, value_at};
use crate::runs::{Sent, sent_at};
use pb_cli_cost::Status;
use pb_plain_run::RunFault;
use std::alloc::Global;

/// Bodies of protocols from N = 4 on, each behind the number at which N ends.
const BODIES: &str = "12
  A() from W[i:5..N-1] to W[i-1];
--
9
  A(int32[3]) from W[i:N-4..1] to W[i+1]; B() from W[0] to W[1];
--
6
  foreach (i:1..N-2) { A() from W[i-1] to W[i]; B(uint32[2]) from W[i+1] to W[i]; compute K at W[i]; }
--
8
  choice K at W[0] { A(int32[2]) from W[0] to W[i:1..N-1]; } or { B() from W[0] to W[i:1..N-1]; C(int32[9]) from W[1] to W[0]; }
--
9
  choice K at W[0] { A() from W[0] to W[i:1..N-1]; D(int32[5]) from W[i:3..N-1] to W[0]; } or { B() from W[0] to W[i:1..N-1]; C(int32[9]) from W[1] to W[0]; }
  choice L at W[1] { A() from W[1] to W[0]; D(int32[5]) from W[1] to W[0]; } or { B() from W[1] to W[0]; } or { E() from W[1] to W[0]; C(int32[9]) from W[0] to W[1]; }
--
9
  choice K at W[0] { A() from W[0] to W[i:1..N-1]; choice L at W[0] { A() from W[0] to W[i:1..N-1]; } or { B() from W[0] to W[i:1..N-1]; E(int32) from W[0] to W[i:1..N-1]; } } or { B() from W[0] to W[i:1..N-1]; C(int32[9]) from W[1] to W[0]; }
--
4
  barrier; allreduce S(uint32) with sum; broadcast T(int32[4]) from W[0]; compute K at W[1];
--
3

--
10
  choice K at W[0] { A() from W[0] to W[i:1..N-1]; F(int32[7]) from W[i:2..N-1] to W[i-1]; F(int32[7]) from W[i:N-3..3] to W[0]; } or { B() from W[0] to W[i:1..N-1]; C(int32[9]) from W[i:1..N-1] to W[0]; }";

/// What the lines say at N = n, where each list has one piece there.
fn told_at(lines: &str, n: u32) -> Option<Sent> {
    let n = i64::from(n);
    Some(Sent {
        least_messages: value_at(lines, "least messages ", n)?,
        most_messages: value_at(lines, "most messages ", n)?,
        least_words: value_at(lines, "least words ", n)?,
        most_words: value_at(lines, "most words ", n)?,
    })
}

/// Whether the lines say what the runs send, at each N from `low` on and below `high`.
fn tell_runs(
    alloc: Global,
    file: &str,
    lines: &str,
    low: u32,
    high: u32,
) -> Result<bool, RunFault> {
    for n in low..high {
        let sent = sent_at(alloc, file, n)?;
        if sent.is_none() || told_at(lines, n) != sent {
            return Ok(false);
        }
    }
    Ok(true)
}

/// Whether the lines of a protocol with this body say what its runs send, at each N of a part of its range.
fn agrees(alloc: Global, range: &str, body: &str, low: u32, high: u32) -> Result<bool, RunFault> {
    let file = protocol(alloc, range, body)?;
    let told = told(alloc, file.as_str())?;
    Ok(
        told.status == Status::Done
            && tell_runs(alloc, file.as_str(), told.lines.as_str(), low, high)?,
    )
}

/// The number and the body of a block.
fn parts_of(block: &str) -> (u32, &str) {
    let (number, body) = block.split_once('\n').unwrap_or((block, ""));
    (number.parse().unwrap_or(0), body)
}

#[test]
fn every_run_is_within_what_is_told(rt: HostRuntime) {
    for block in BODIES.split("\n--\n") {
        let (most, body) = parts_of(block);
        assert!(rt;
            agrees(rt.alloc(), "4..max", body, 4, most) == Ok(true),
            "{body}"
        );
        assert!(rt;
            agrees(rt.alloc(), "4..11", body, 4, most) == Ok(true),
            "{body}"
        );
        assert!(rt;
            agrees(rt.alloc(), "5..5", body, 5, 6) == Ok(true),
            "{body}"
        );
    }
}
