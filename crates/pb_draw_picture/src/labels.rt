//! The labels on arrows, where there is room.

use crate::arrows::Arrow;
use crate::pen::Pen;
use crate::scale::{LETTER, Scale};
use crate::tooltip::name_of;
use crate::whole::Scene;
use pb_text::NoMemory;
use std::alloc::Global;

/// How many crossings of arrows and gaps are looked at. Where there are more, no arrow has a label.
const MOST_CROSSINGS: usize = 400_000;

/// From an arrow to its label, in pixels.
const MARGIN: u64 = 5;

/// Where an arrow crosses the middle between two rows.
#[derive(Clone, Copy, PartialEq, Eq, PartialOrd, Ord)]
struct Crossing {
    /// The row above.
    gap: u32,
    /// From the left, in pixels.
    x: u64,
}

/// Where an arrow crosses the middle below the row `gap`.
fn crossing_at(arrow: &Arrow, from: u32, to: u32, gap: u32) -> Crossing {
    let count = u64::from(from.abs_diff(to));
    let steps = u64::from(if from < to {
        gap.saturating_sub(from)
    } else {
        from.saturating_sub(gap).saturating_sub(1)
    });
    let width = arrow.end.x.saturating_sub(arrow.start.x);
    let halves = steps.saturating_mul(2).saturating_add(1);
    let part = width
        .saturating_mul(halves)
        .checked_div(count.saturating_mul(2));
    Crossing {
        gap,
        x: arrow.start.x.saturating_add(part.unwrap_or(0)),
    }
}

/// All crossings, ascending. None where there are too many.
fn crossings(alloc: Global, arrows: &[Arrow]) -> Result<Vec<Crossing>, NoMemory> {
    let mut all = Vec::new(alloc);
    for arrow in arrows {
        if let Some((from, to)) = arrow.rows {
            add_crossings(&mut all, arrow, from, to)?;
        }
    }
    all.sort_unstable();
    Ok(all)
}

fn add_crossings(
    all: &mut Vec<Crossing>,
    arrow: &Arrow,
    from: u32,
    to: u32,
) -> Result<(), NoMemory> {
    for gap in from.min(to)..from.max(to) {
        if MOST_CROSSINGS < all.len() {
            break;
        }
        all.push(crossing_at(arrow, from, to, gap))?;
    }
    Ok(())
}

/// How far the next arrow is behind this crossing, in the same gap: 0 where two cross it there.
fn room(crossings: &[Crossing], own: Crossing, right: u64) -> u64 {
    let first = crossings.partition_point(|other| *other < own);
    let second = match crossings.get(first.saturating_add(1)) {
        Some(next) if next.gap == own.gap => next.x,
        _ => right,
    };
    second.saturating_sub(own.x)
}

/// The label of each arrow that has room for it, beside its middle.
pub fn put_labels(
    alloc: Global,
    pen: &mut Pen,
    scale: &Scale,
    scene: &Scene<'_>,
    arrows: &[Arrow],
) -> Result<(), NoMemory> {
    let crossings = crossings(alloc, arrows)?;
    if MOST_CROSSINGS < crossings.len() {
        return Ok(());
    }
    pen.put(b"<g class=\"labels\">\n")?;
    for arrow in arrows {
        if let Some((from, to)) = arrow.rows {
            put_label(
                pen,
                scale,
                scene,
                &crossings,
                arrow,
                middle(arrow, from, to),
            )?;
        }
    }
    pen.put(b"</g>\n")
}

/// Where an arrow crosses the gap in its middle.
fn middle(arrow: &Arrow, from: u32, to: u32) -> Crossing {
    let gap = from.min(to).saturating_add(from.abs_diff(to) / 2);
    crossing_at(arrow, from, to, gap)
}

fn put_label(
    pen: &mut Pen,
    scale: &Scale,
    scene: &Scene<'_>,
    crossings: &[Crossing],
    arrow: &Arrow,
    own: Crossing,
) -> Result<(), NoMemory> {
    let name = match scene.layout.entries.get(arrow.index) {
        Some(entry) => name_of(scene.log, entry.step.name),
        None => return Ok(()),
    };
    let wanted = LETTER
        .saturating_mul(name.len() as u64)
        .saturating_add(MARGIN)
        .saturating_add(MARGIN);
    if wanted <= room(crossings, own, scale.right()) {
        let y = scale
            .y(own.gap)
            .saturating_add(scale.row / 2)
            .saturating_add(3);
        pen.put_label(own.x.saturating_add(MARGIN), y, name)?;
    }
    Ok(())
}
