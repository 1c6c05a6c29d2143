//! Which N a protocol is for, and how many ranks it has.

use pb_explain_ranks::Setting;
use pb_explain_runs::{Count, MOST_RANKS, Values, tell_flight, tell_many_ranks, tell_outside};
use pb_explain_source::{NoMemory, Page, Source};
use pb_syntax::FileTree;
use std::alloc::Global;

/// How many ranks each role of a protocol has at N.
fn counts_of(alloc: Global, file: &FileTree, n: i64) -> Result<Vec<Count>, NoMemory> {
    let setting = Setting { file, n };
    let mut counts = Vec::new(alloc);
    for role in &file.roles {
        let ranks = match setting.indices(role) {
            Some(span) => span.count(),
            None => 0,
        };
        counts.push(Count {
            role: role.role.name,
            ranks,
        })?;
    }
    Ok(counts)
}

/// Writes that a protocol isn't for this N.
pub fn tell_values(
    alloc: Global,
    page: &mut Page,
    file: &FileTree,
    n: i64,
) -> Result<(), NoMemory> {
    let counts = counts_of(alloc, file, Values::of(file).nearest(n))?;
    tell_outside(page, file, n, counts.as_slice())
}

/// Writes which limit a simulation of a protocol passes: that on ranks, or else that on words under way.
pub fn tell_many(
    alloc: Global,
    page: &mut Page,
    source: &Source,
    file: &FileTree,
    n: i64,
) -> Result<(), NoMemory> {
    let total = Setting { file, n }.total();
    if total <= MOST_RANKS {
        return tell_flight(page, source.file);
    }
    let more = Setting {
        file,
        n: n.saturating_add(1),
    };
    let slope = more.total().saturating_sub(total);
    let counts = counts_of(alloc, file, n)?;
    tell_many_ranks(
        page,
        source.file,
        n,
        i64::from(file.low),
        counts.as_slice(),
        slope,
    )
}
