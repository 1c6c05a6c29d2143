//! The marks of events.

use crate::pen::Pen;
use crate::scale::Scale;
use crate::tooltip::put_tooltip;
use crate::whole::Scene;
use pb_draw_log::Deed;
use pb_text::NoMemory;

/// The forms that marks have. Marks of one form stand together.
#[derive(Clone, Copy)]
enum Form {
    /// A dot, for a send and a receive.
    Dot,
    /// A bar, for a run.
    Bar,
    /// A diamond with the branch in it, for a choice.
    Diamond,
    /// A stroke, for an entry and a leave.
    Stroke,
}

impl Form {
    fn of(deed: Deed) -> Form {
        match deed {
            Deed::Choose(_) => Form::Diamond,
            Deed::Run => Form::Bar,
            Deed::Send(_) | Deed::Recv(_) => Form::Dot,
            Deed::Enter | Deed::Leave => Form::Stroke,
        }
    }

    /// The head of the group of these marks.
    fn group(self) -> &'static [u8] {
        match self {
            Form::Dot => b"<g class=\"dots\">\n",
            Form::Bar => b"<g class=\"bars\">\n",
            Form::Diamond => b"<g class=\"diamonds\">\n",
            Form::Stroke => b"<g class=\"strokes\">\n",
        }
    }

    /// The line of a mark there.
    fn put(self, pen: &mut Pen, x: u64, y: u64) -> Result<(), NoMemory> {
        match self {
            Form::Dot => put_path(pen, x, y, b"h0"),
            Form::Bar => put_path(pen, x.saturating_sub(9), y, b"h18"),
            Form::Diamond => put_path(pen, x, y.saturating_sub(10), b"l10 10-10 10-10-10z"),
            Form::Stroke => put_path(pen, x, y.saturating_sub(7), b"v14"),
        }
    }
}

fn put_path(pen: &mut Pen, x: u64, y: u64, line: &[u8]) -> Result<(), NoMemory> {
    pen.put(b"<path d=\"M")?;
    pen.put_point(x, y)?;
    pen.put(line)?;
    pen.put(b"\">")
}

/// All events, and the branches of choices.
pub fn put_events(pen: &mut Pen, scale: &Scale, scene: &Scene<'_>) -> Result<(), NoMemory> {
    put_marks(pen, scale, scene, Form::Dot)?;
    put_marks(pen, scale, scene, Form::Bar)?;
    put_marks(pen, scale, scene, Form::Stroke)?;
    put_marks(pen, scale, scene, Form::Diamond)?;
    put_branches(pen, scale, scene)
}

fn put_marks(pen: &mut Pen, scale: &Scale, scene: &Scene<'_>, form: Form) -> Result<(), NoMemory> {
    pen.put(form.group())?;
    let layout = scene.layout;
    let spots = layout.columns.iter().zip(&layout.rows);
    for ((entry, place), (column, row)) in layout.entries.iter().zip(&layout.places).zip(spots) {
        if Form::of(entry.step.deed) == form {
            form.put(pen, scale.x(*column), scale.y(*row))?;
            put_tooltip(pen, scene.bytes, scene.log, *place, entry)?;
            pen.put(b"</path>\n")?;
        }
    }
    pen.put(b"</g>\n")
}

fn put_branches(pen: &mut Pen, scale: &Scale, scene: &Scene<'_>) -> Result<(), NoMemory> {
    pen.put(b"<g class=\"branches\">\n")?;
    let layout = scene.layout;
    for ((entry, column), row) in layout.entries.iter().zip(&layout.columns).zip(&layout.rows) {
        if let Deed::Choose(branch) = entry.step.deed {
            pen.open_label(scale.x(*column), scale.y(*row).saturating_add(3))?;
            pen.put_number(u64::from(branch))?;
            pen.put(b"</text>\n")?;
        }
    }
    pen.put(b"</g>\n")
}
