//! The title of a picture, and its legend.
use crate::chart::Chart;
use crate::picture::{ASKED, BREACH, EMBARGO, RETURNED};
use chart_parts::{EVENT, MESSAGE, write_bar_sign, write_sign};
use std::alloc::AllocError;
use std::fmt::Write;

/// Which messages are drawn, and how many are left out.
pub(crate) fn write_title(svg: &mut String, chart: &Chart) -> Result<(), AllocError> {
    write!(
        svg,
        "<text x=\"12\" y=\"22\" font-size=\"13\" fill=\"{EVENT}\">"
    )?;
    write_extent(svg, chart)?;
    let left_out = chart.messages.saturating_sub(chart.drawn);
    if left_out > 0 {
        write!(
            svg,
            "; {left_out} left out (others are drawn with --from N --to N)"
        )?;
    }
    if chart.unseen > 0 {
        let unseen = chart.unseen;
        write!(svg, ", of which {unseen} break the protocol")?;
    }
    svg.push_str("</text>\n")
}

fn write_extent(svg: &mut String, chart: &Chart) -> Result<(), AllocError> {
    let all = chart.messages;
    if chart.drawn == 0 {
        return write!(svg, "none of {all} messages");
    }
    let first = chart.options.from;
    let last = first.saturating_add(chart.drawn - 1);
    write!(
        svg,
        "messages {first} to {last} of {all}, as they passed the point of capture"
    )
}

/// What the signs say.
pub(crate) fn write_legend(svg: &mut String) -> Result<(), AllocError> {
    write_bar_sign(svg, 12, ASKED)?;
    write_sign(svg, 26, "asked, no Return yet")?;
    write_bar_sign(svg, 164, RETURNED)?;
    write_sign(svg, 178, "returned, not finished")?;
    write_bar_sign(svg, 322, EMBARGO)?;
    write_sign(svg, 336, "embargo")?;
    writeln!(
        svg,
        "<line x1=\"404\" y1=\"43\" x2=\"434\" y2=\"43\" stroke=\"{MESSAGE}\" stroke-dasharray=\"5 3\"/>"
    )?;
    write_sign(svg, 440, "Return")?;
    writeln!(
        svg,
        "<text x=\"500\" y=\"47\" fill=\"{BREACH}\">breaks the protocol</text>"
    )?;
    write_sign(
        svg,
        640,
        "a number behind “to”, “of” or “in” is a message’s",
    )
}
