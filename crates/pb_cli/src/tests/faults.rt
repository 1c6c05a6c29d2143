//! Calls whose reads and writes fail, and folders and sinks that never do.

ghost use Rattle.std.specs.Prelude.{◌≡◌};

use crate::call::pabble;
use crate::tests::session::{Faults, NONE, file, hold, word_of, words_of};
use pb_cli_status::Status;
use pb_io::{SureFolder, SureSink};
use pb_text::NoMemory;
use std::alloc::Global;
use std::process::Abort;

/// One message from the first rank to the last.
const FIRST: &str = "const N = 2..max;
global protocol P(role W[0..N-1]) {
  A() from W[0] to W[N-1];
}
";

/// Asserts that each of these calls answers so where `p` is the first protocol.
fn hold_first(
    rt: &impl Abort,
    alloc: Global,
    faults: Faults,
    calls: &str,
    wanted: &str,
) -> Result<(), NoMemory> {
    hold(rt, alloc, faults, FIRST, calls, wanted)
}

/// What `gen p` answers.
const GENERATED: &str = "status 0
/* pabble 1 */
/* protocol P */
/* N 2 to max */
/* role W 0 to N - 1 */
/* label A () */
#include <mpi.h>
#include <stdint.h>
static int32_t is[1024], ir[1024];
static uint32_t us[1024], ur[1024];
/*@ prelude */
/*@ end */
static int32_t r_W(int32_t N, int32_t x)
{
  return x + 0 * N + 0;
}
int main(int argc, char **argv)
{
  int size, rank;
  int32_t N, R, I, a, i;
  MPI_Status st;
  MPI_Init(&argc, &argv);
  MPI_Comm_size(MPI_COMM_WORLD, &size);
  MPI_Comm_rank(MPI_COMM_WORLD, &rank);
  N = (size - 0) / 1;
  R = 0;
  I = 0;
  a = 0;
  i = 0;
  if (N < 2 || 1 * N + 0 != size) {
    MPI_Abort(MPI_COMM_WORLD, 2);
  }
  if (rank >= 0 * N + 0) {
    R = 0;
    I = rank - (0 * N + 0);
  }
  if (R == 0 && I == 0) {
    MPI_Send(us, 0, MPI_UINT32_T, r_W(N, N - 1), 0, MPI_COMM_WORLD);
  }
  if (R == 0 && I == N - 1) {
    MPI_Recv(ur, 0, MPI_UINT32_T, r_W(N, 0), 0, MPI_COMM_WORLD, MPI_STATUS_IGNORE);
  }
  MPI_Finalize();
  return 0;
}
";

const UNREAD: &str = "status 3\npabble: read fault\n";

#[test]
fn each_failing_read_is_a_read_fault(rt: HostRuntime) -> Result<(), NoMemory> {
    for read in 0..3 {
        let failing = Faults { read, ..NONE };
        hold_first(&rt, rt.alloc(), failing, "gen p; check p", UNREAD)?;
    }
    let behind = Faults { read: 3, ..NONE };
    hold_first(&rt, rt.alloc(), behind, "gen p", GENERATED)
}

const NINETY_NINE_BYTES: &str = "status 4
/* pabble 1 */
/* protocol P */
/* N 2 to max */
/* role W 0 to N - 1 */
/* label A () */
#include ";

#[test]
fn a_failing_write_leaves_a_front(rt: HostRuntime) -> Result<(), NoMemory> {
    let alloc = rt.alloc();
    let at_first = Faults { piece: 0, ..NONE };
    hold_first(&rt, alloc, at_first, "gen p", "status 4\n")?;
    let ten = Faults { room: 10, ..NONE };
    hold_first(&rt, alloc, ten, "gen p", "status 4\n/* pabble ")?;
    hold_first(&rt, alloc, ten, "demo 4", "status 4\ndemo 4\nsen")?;
    let twelve = Faults { room: 12, ..NONE };
    hold_first(&rt, alloc, twelve, "demo 4", "status 4\ndemo 4\nsends")?;
    let some = Faults {
        most: 1,
        piece: 99,
        ..NONE
    };
    hold_first(&rt, alloc, some, "gen p", NINETY_NINE_BYTES)
}

#[test]
fn each_byte_is_taken_alone(rt: HostRuntime) -> Result<(), NoMemory> {
    let alone = Faults { most: 1, ..NONE };
    hold_first(&rt, rt.alloc(), alone, "gen p", GENERATED)?;
    hold_first(
        &rt,
        rt.alloc(),
        alone,
        "gen; check",
        "status 2\npabble: usage\n",
    )
}

#[test]
fn check_writes_into_the_room_that_there_is(rt: HostRuntime) -> Result<(), NoMemory> {
    let all = Faults { room: 64, ..NONE };
    hold_first(&rt, rt.alloc(), all, "check p", "status 0\naccepted\n")?;
    let most = Faults { room: 8, ..NONE };
    hold_first(&rt, rt.alloc(), most, "check p", "status 4\naccepted")
}

/// The status over a folder and a sink that never fail.
fn sure(alloc: Global, words: &[String], folder: &mut SureFolder, out: &mut SureSink) -> Status
    ensures read { result ≡ Status.ReadFault → ⊥ }
    ensures write { result ≡ Status.WriteFault → ⊥ }
{
    pabble(alloc, words, folder, out, word_of)
}

/// True where a call over them ends so, and writes so many bytes.
fn is_sure(
    alloc: Global,
    folder: &mut SureFolder,
    line: &str,
    code: u8,
    count: u64,
) -> Result<bool, NoMemory> {
    let words = words_of(alloc, line)?;
    let mut out = SureSink::new();
    let status = sure(alloc, &words, folder, &mut out);
    Ok(status.code() == code && out.count() == count)
}

#[test]
fn sure_ones_have_no_fault(rt: HostRuntime) -> Result<(), NoMemory> {
    let p = file(rt.alloc(), "p", FIRST.as_bytes())?;
    let mut folder = SureFolder::new(vec![in rt.alloc(); p]?);
    for (line, code, count) in [
        ("gen p", 0, 944),
        ("check p", 0, 9),
        ("project p", 0, 92),
        ("check q", 1, 22),
        ("project q", 1, 22),
    ] {
        let is_so = is_sure(rt.alloc(), &mut folder, line, code, count)?;
        assert!(rt; is_so, "{line}");
    }
    Ok(())
}
