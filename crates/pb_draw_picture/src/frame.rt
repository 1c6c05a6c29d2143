//! The head of a picture, its colours and what its marks mean.

use crate::pen::Pen;
use crate::scale::Scale;
use pb_text::NoMemory;

/// How wide a picture is at least, in pixels: what stands below the rows needs this much.
const LEAST_WIDTH: u64 = 680;

/// The colours by day and by night. Forms differ, too, so that a picture can be read in black and white.
pub const STYLE: &[u8] = b"<style>
svg{background:#fff;color:#1b1f24;font:10px sans-serif}
text{fill:currentColor}
path{fill:none;stroke:currentColor}
.paper{fill:#fff}
.rank{stroke:#b6bcc4}
.ends{text-anchor:end}
.times{text-anchor:middle;fill-opacity:.7}
.chain{stroke:#f0b429;stroke-width:11;stroke-linecap:round;stroke-linejoin:round;stroke-opacity:.6}
.bands rect{fill:#7a8594;fill-opacity:.16;stroke:#7a8594}
.arrows path{stroke:#1f5fbf;stroke-width:1.3;marker-end:url(#head)}
.open path{stroke-dasharray:5 4}
marker path{fill:#1f5fbf;stroke:none}
.dots path{stroke-width:7;stroke-linecap:round}
.bars path{stroke:#2c7a4b;stroke-width:9}
.strokes path{stroke-width:3}
.diamonds path{stroke:#8a3fc0;stroke-width:1.5;fill:#fff}
.branches{text-anchor:middle;font-size:9px}
.stuck path{stroke:#c62828;stroke-width:3}
.stuck text{fill:#c62828;font-weight:bold}
.numbers{text-anchor:end}
@media(prefers-color-scheme:dark){
svg{background:#14181d;color:#e6e9ed}
.paper,.diamonds path{fill:#14181d}
.rank{stroke:#4a525c}
.chain{stroke:#b98200}
.arrows path{stroke:#7fb2ff}
marker path{fill:#7fb2ff}
.bars path{stroke:#5cc08a}
.diamonds path{stroke:#c792ea}
.stuck path{stroke:#ff6b6b}
.stuck text{fill:#ff6b6b}
}
</style>
<marker id=\"head\" viewBox=\"0 0 8 8\" refX=\"11\" refY=\"4\" markerWidth=\"7\" markerHeight=\"7\" orient=\"auto\"><path d=\"M0 0L8 4L0 8z\"/></marker>
";

/// What the marks mean, around a middle line.
pub const LEGEND: &[u8] =
    b"<g class=\"dots\"><path d=\"M4 0h0\"/></g><text x=\"14\" y=\"4\">send, receive</text>
<g class=\"bars\"><path d=\"M92 0h18\"/></g><text x=\"115\" y=\"4\">run</text>
<g class=\"diamonds\"><path d=\"M152-10l10 10-10 10-10-10z\"/></g><text x=\"167\" y=\"4\">choice and its branch</text>
<g class=\"strokes\"><path d=\"M284-7v14\"/></g><text x=\"291\" y=\"4\">enters or leaves a collective</text>
<g class=\"arrows open\"><path d=\"M440 0h34\"/></g><text x=\"479\" y=\"4\">not taken</text>
<path class=\"chain\" d=\"M538 0h20\"/><text x=\"568\" y=\"4\">longest chain</text>
</g>
";

/// The head of a picture whose part below the rows is so high.
pub fn open(pen: &mut Pen, scale: &Scale, below: u64) -> Result<(), NoMemory> {
    let width = scale.right().saturating_add(60).max(LEAST_WIDTH);
    let height = scale.bottom().saturating_add(below);
    pen.put(b"<svg xmlns=\"http://www.w3.org/2000/svg\" version=\"1.1\" width=\"")?;
    pen.put_number(width)?;
    pen.put(b"\" height=\"")?;
    pen.put_number(height)?;
    pen.put(b"\" viewBox=\"0 0 ")?;
    pen.put_point(width, height)?;
    pen.put(b"\">\n")?;
    pen.put(STYLE)?;
    pen.put(b"<rect class=\"paper\" width=\"100%\" height=\"100%\"/>\n")
}

/// The end of a picture.
pub fn close(pen: &mut Pen) -> Result<(), NoMemory> {
    pen.put(b"</svg>\n")
}

/// What the marks mean, in a row whose middle is at this height.
pub fn put_legend(pen: &mut Pen, y: u64) -> Result<(), NoMemory> {
    pen.put(b"<g transform=\"translate(14 ")?;
    pen.put_number(y)?;
    pen.put(b")\">\n")?;
    pen.put(LEGEND)
}
