//! The whole picture.

use crate::arrows::{arrows_of, put_arrows};
use crate::chain::put_chain;
use crate::events::put_events;
use crate::frame::{close, open};
use crate::labels::put_labels;
use crate::lines::{put_bands, put_lines, put_ranks, put_stuck, put_times};
use crate::pen::Pen;
use crate::scale::Scale;
use crate::sums::{height, put_sums};
use pb_draw_layout::{Layout, Sums};
use pb_draw_log::Log;
use pb_draw_times::Times;
use pb_text::NoMemory;
use std::alloc::Global;

/// What is drawn.
#[derive(Clone, Copy)]
pub struct Scene<'a> {
    /// The bytes of the log.
    pub bytes: &'a [u8],
    /// The log.
    pub log: &'a Log,
    /// The times of its events.
    pub times: &'a Times,
    /// Which events are drawn, and where.
    pub layout: &'a Layout,
    /// How much is sent.
    pub sums: &'a Sums,
    /// The line behind the events, without its line feed.
    pub ending: Option<&'a [u8]>,
}

/// The picture of a log. Each event takes less than 200 bytes, where names have at most 8 letters.
pub fn picture(alloc: Global, scene: &Scene<'_>) -> Result<Vec<u8>, NoMemory> {
    let scale = Scale::of(scene.layout);
    let arrows = arrows_of(alloc, &scale, scene)?;
    let mut pen = Pen::new(alloc);
    open(&mut pen, &scale, height(scene))?;
    put_chain(&mut pen, &scale, scene.layout)?;
    put_bands(&mut pen, &scale, scene)?;
    put_lines(&mut pen, &scale)?;
    put_times(&mut pen, &scale, scene.layout)?;
    put_ranks(&mut pen, &scale, scene.layout)?;
    put_arrows(&mut pen, scene, &arrows)?;
    put_events(&mut pen, &scale, scene)?;
    put_labels(alloc, &mut pen, &scale, scene, &arrows)?;
    put_stuck(&mut pen, &scale, scene)?;
    put_sums(&mut pen, &scale, scene)?;
    close(&mut pen)?;
    Ok(pen.into_bytes())
}
