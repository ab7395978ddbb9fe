//! Signs of a picture, and the words of its legend.

use crate::text::write_label;
use std::alloc::AllocError;
use std::fmt::Write;

/// The colour of messages.
pub const MESSAGE: &str = "#1d4e89";

/// The colour of what an application does and sees, and of names.
pub const EVENT: &str = "#1f2937";

/// The colour of the rest.
pub const FAINT: &str = "#6b7280";

const DOWN: &str = "#b91c1c";

/// The head of arrows, of that name and colour.
pub fn write_head(svg: &mut String, name: &str, fill: &str) -> Result<(), AllocError> {
    writeln!(
        svg,
        "<marker id=\"{name}\" orient=\"auto\" markerUnits=\"userSpaceOnUse\" markerWidth=\"10\" markerHeight=\"8\" refX=\"10\" refY=\"4\"><path d=\"M 0 0 L 10 4 L 0 8 Z\" fill=\"{fill}\"/></marker>"
    )
}

/// A word of the legend.
pub fn write_sign(svg: &mut String, x: u64, says: &str) -> Result<(), AllocError> {
    writeln!(
        svg,
        "<text x=\"{x}\" y=\"47\" fill=\"{FAINT}\">{says}</text>"
    )
}

/// A bar of the legend.
pub fn write_bar_sign(svg: &mut String, x: u64, fill: &str) -> Result<(), AllocError> {
    writeln!(
        svg,
        "<rect x=\"{x}\" y=\"36\" width=\"8\" height=\"14\" fill=\"{fill}\"/>"
    )
}

/// A dot.
pub fn write_dot(
    svg: &mut String,
    at: (u64, u64),
    fill: &str,
    stroke: &str,
) -> Result<(), AllocError> {
    writeln!(
        svg,
        "<circle cx=\"{}\" cy=\"{}\" r=\"3\" fill=\"{fill}\" stroke=\"{stroke}\"/>",
        at.0, at.1
    )
}

/// A cross.
pub fn write_cross(svg: &mut String, x: u64, y: u64) -> Result<(), AllocError> {
    let (left, right) = (x.saturating_sub(6), x.saturating_add(6));
    let (top, low) = (y.saturating_sub(6), y.saturating_add(6));
    writeln!(
        svg,
        "<path d=\"M {left} {top} L {right} {low} M {left} {low} L {right} {top}\" stroke=\"{DOWN}\" stroke-width=\"3\"/>"
    )
}

/// A label that begins or ends there, cut if it has no place; the place is in tenths of a pixel.
pub fn write_text(
    svg: &mut String,
    at: (u64, u64),
    anchor: &str,
    fill: &str,
    text: &str,
    place: u16,
) -> Result<(), AllocError> {
    write!(
        svg,
        "<text x=\"{}\" y=\"{}\" text-anchor=\"{anchor}\" fill=\"{fill}\">",
        at.0, at.1
    )?;
    write_label(svg, text, place)?;
    svg.push_str("</text>\n")
}
