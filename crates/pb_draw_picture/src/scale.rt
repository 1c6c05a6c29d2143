//! Where rows and columns are.

use pb_draw_layout::{Layout, narrow};

/// How wide a letter is taken to be, in pixels.
pub const LETTER: u64 = 6;

/// How far the first row is from the upper edge.
const TOP: u64 = 48;

/// Where rows and columns are, in pixels from the left and from above.
#[derive(Clone, Copy)]
pub struct Scale {
    /// Where the lines of the ranks begin.
    pub left: u64,
    /// From one column to the next.
    pub column: u64,
    /// From one row to the next.
    pub row: u64,
    /// How many columns there are.
    pub columns: u32,
    /// How many rows there are.
    pub rows: u32,
}

impl Scale {
    /// The scale of a layout: wide columns and high rows where there are few of them.
    pub fn of(layout: &Layout) -> Scale {
        let columns = narrow(layout.times.len());
        let rows = narrow(layout.ranks.len());
        Scale {
            left: left(layout.ranks.last().copied()),
            column: if columns <= 100 { 34 } else { 24 },
            row: if rows <= 16 { 38 } else { 28 },
            columns,
            rows,
        }
    }

    /// Where a column is.
    pub fn x(&self, column: u32) -> u64 {
        let first = self.left.saturating_add(22);
        first.saturating_add(u64::from(column).saturating_mul(self.column))
    }

    /// Where a row is.
    pub fn y(&self, row: u32) -> u64 {
        TOP.saturating_add(u64::from(row).saturating_mul(self.row))
    }

    /// Where the lines of the ranks end.
    pub fn right(&self) -> u64 {
        self.x(self.columns)
    }

    /// Where what stands under the rows begins.
    pub fn bottom(&self) -> u64 {
        self.y(self.rows)
    }
}

/// Where the lines of the ranks begin, so that the greatest number has room in front of them.
fn left(greatest: Option<u32>) -> u64 {
    let mut rest = match greatest {
        Some(rank) => rank,
        None => 0,
    };
    let mut width: u64 = 46;
    for _ in 0..9 {
        rest /= 10;
        if rest > 0 {
            width = width.saturating_add(LETTER);
        }
    }
    width
}
