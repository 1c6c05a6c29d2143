ghost use Rattle.std.specs.Prelude.{◌≡◌, ◌≢◌, ◌+◌, ◌<◌, ◌^◌, OnOk};
ghost use Rattle.pb_cost_joins.specs.Merging.{IsReading, ReadsAll};

use crate::adding::add_part;
use pb_cost_pieces::{Builder, Join, NoMemory, Stretch};

/// The rest of the span, behind its first number.
pub(crate) fn merge(
    builder: &mut Builder,
    join: Join,
    left: &[Stretch],
    right: &[Stretch],
) -> Result<(), NoMemory>
    requires { IsReading join left.now right.now left.now right.now builder.old.done.items builder.old.latest }
    ensures { OnOk result (ReadsAll join left.now right.now builder.old.done.items builder.old.latest builder.new.done.items builder.new.latest) }
{
    let mut i = 0;
    let mut j = 0;
    'parts: while i < left.len() && j < right.len() {
        let s = left[i];
        let t = right[j];
        add_part(builder, join, &s, &t)?;
        i = past(&s, i, &builder.latest);
        j = past(&t, j, &builder.latest);
    }
    Ok(())
}

/// The number of the stretch that has what is behind the latest one.
fn past(s: &Stretch, i: usize, latest: &Stretch) -> usize
    requires { i + 1 < 2 ^ 64 }
    ensures ended { s.now.to ≡ latest.now.to → result ≡ i + 1 }
    ensures going { s.now.to ≢ latest.now.to → result ≡ i }
{
    if s.to == latest.to { i + 1 } else { i }
}
