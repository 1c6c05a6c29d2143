//! The longest chain.

use crate::pen::Pen;
use crate::scale::Scale;
use pb_draw_layout::Layout;
use pb_text::NoMemory;

/// A broad line through the events of the longest chain, as far as they are drawn.
pub fn put_chain(pen: &mut Pen, scale: &Scale, layout: &Layout) -> Result<(), NoMemory> {
    pen.put(b"<path class=\"chain\" d=\"")?;
    for link in &layout.chain {
        if let (Some(column), Some(row)) = (
            layout.columns.get(link.index),
            layout.rows.get(link.index),
        ) {
            pen.put(if link.is_joined { b"L" } else { b"M" })?;
            pen.put_point(scale.x(*column), scale.y(*row))?;
        }
    }
    pen.put(b"\"><title>the longest chain</title></path>\n")
}
