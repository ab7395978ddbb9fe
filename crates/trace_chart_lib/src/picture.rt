use crate::bars::{Bar, Cause};
use crate::chart::{Arrow, Chart, Mark, Note};
use crate::labels::{letter, write_embargo, write_stamp};
use chart_parts::{
    EVENT, FAINT, Foot, Frame, MESSAGE, Place, ROW, end_of, write_bar_sign, write_cross, write_dot,
    write_head, write_number, write_sign, write_text, y_of,
};
use rpc_msg::{RefId, Vat};
use std::alloc::{AllocError, Global};
use std::fmt::Write;

/// The entries' numbers end there.
const NUMBERS: u64 = 42;

/// How wide a label may be, in tenths of a pixel; the rest of its column has the sign that it is cut.
const LABEL: u16 = 4800;

/// Where the lifelines of vat A and of vat B stand.
const LIFELINE_A: u64 = 560;

const LIFELINE_B: u64 = 840;

/// Where vat A and vat B stand, and what is said of them.
const FRAME: Frame = Frame {
    width: 1400,
    outer: NUMBERS + 8,
    left: LIFELINE_A,
    right: LIFELINE_B,
};

/// What the lifelines are called.
const VATS: (&str, &str) = ("vat A", "vat B");

/// How long an arrow is that is cut.
const STUB: u64 = 40;

/// How far a bar is from the one in the lane before it, and in how many places lanes are drawn.
const LANE: u64 = 10;

const LANES: u64 = 12;

/// The height below the last row.
const BOTTOM: u64 = 12;

/// The colours of what stands out, of embargoes, of calls that wait, of vats that go down.
const MARKED: &str = "#c2410c";

const EMBARGO: &str = "#f2c879";

const WAIT: &str = "#a9c4e8";

const DOWN: &str = "#b91c1c";

/// The picture as SVG.
pub(crate) fn picture(alloc: Global, chart: &Chart) -> Result<String, AllocError> {
    let foot = foot_of(alloc, chart)?;
    let mut svg = String::new(alloc);
    write_picture(&mut svg, chart, &foot)?;
    Ok(svg)
}

/// The labels that are cut, whole.
fn foot_of(alloc: Global, chart: &Chart) -> Result<Foot, AllocError> {
    let mut foot = Foot::new(alloc, end_of(chart.rows.len()));
    for note in chart.notes.iter() {
        if let Some(number) = chart.rows.get(note.row) {
            foot.add(*number, letter(note.vat), note.label.as_str(), LABEL)?;
        }
    }
    Ok(foot)
}

fn write_picture(svg: &mut String, chart: &Chart, foot: &Foot) -> Result<(), AllocError> {
    let height = foot.end().saturating_add(BOTTOM);
    FRAME.open(svg, height)?;
    write_head(svg, "head", MESSAGE)?;
    write_head(svg, "marked", MARKED)?;
    FRAME.write_ground(svg, height)?;
    write_title(svg, chart)?;
    write_legend(svg, chart)?;
    write_rows(svg, chart)?;
    FRAME.write_lifelines(svg, chart.rows.len(), VATS)?;
    write_bars(svg, chart)?;
    write_arrows(svg, chart)?;
    FRAME.write_again(svg, chart.rows.len(), VATS)?;
    write_notes(svg, chart, height)?;
    svg.push_str(foot.svg())?;
    svg.push_str("</svg>\n")
}

/// The height of the first drawn entry with that number or a later one; if there is none, of the lifelines' end.
fn y_from(chart: &Chart, number: u64) -> u64 {
    let row = match chart.rows.binary_search(&number) {
        Ok(row) => row,
        Err(row) => row,
    };
    if row < chart.rows.len() {
        y_of(row)
    } else {
        end_of(chart.rows.len())
    }
}

fn place_of(vat: Vat) -> Place {
    match vat {
        Vat::A => Place::Left,
        Vat::B => Place::Right,
    }
}

fn lifeline(vat: Vat) -> u64 {
    FRAME.lifeline(place_of(vat))
}

/// Which entries are drawn, and how many are left out.
fn write_title(svg: &mut String, chart: &Chart) -> Result<(), AllocError> {
    write!(
        svg,
        "<text x=\"12\" y=\"22\" font-size=\"13\" fill=\"{EVENT}\">"
    )?;
    write_extent(svg, chart)?;
    if chart.left_out > 0 {
        write!(
            svg,
            "; {} left out (others are drawn with --from N --to N)",
            chart.left_out
        )?;
    }
    svg.push_str("</text>\n")
}

fn write_extent(svg: &mut String, chart: &Chart) -> Result<(), AllocError> {
    let Some(first) = chart.rows.first() else {
        return write!(svg, "none of {} entries", chart.entries);
    };
    let last = chart.rows.last().unwrap_or(first);
    write!(svg, "entries {first} to {last} of {}", chart.entries)
}

/// What the signs say.
fn write_legend(svg: &mut String, chart: &Chart) -> Result<(), AllocError> {
    write_bar_sign(svg, 12, EMBARGO)?;
    write_sign(svg, 26, "embargo")?;
    write_bar_sign(svg, 90, WAIT)?;
    write_dot(svg, (94, 43), "white", EVENT)?;
    write_sign(svg, 104, "a call waits")?;
    write_cross(svg, 196, 43)?;
    write_sign(svg, 208, "goes down")?;
    writeln!(
        svg,
        "<line x1=\"284\" y1=\"43\" x2=\"314\" y2=\"43\" stroke=\"{MESSAGE}\" stroke-dasharray=\"4 3\"/>"
    )?;
    write_sign(
        svg,
        320,
        "begins or ends outside the picture, or was not received",
    )?;
    match chart.options.reference {
        Some((vat, reference)) => write_marked_sign(svg, vat, reference, chart.is_named),
        None => Ok(()),
    }
}

/// The reference that stands out, and if no entry names it, that.
fn write_marked_sign(
    svg: &mut String,
    vat: Vat,
    reference: RefId,
    is_named: bool,
) -> Result<(), AllocError> {
    let name = letter(vat);
    let lacks = if is_named {
        ""
    } else {
        ", which no entry names"
    };
    writeln!(
        svg,
        "<line x1=\"730\" y1=\"43\" x2=\"760\" y2=\"43\" stroke=\"{MARKED}\" stroke-width=\"2\"/>\n<text x=\"766\" y=\"47\" fill=\"{MARKED}\">reference {name}/{}{lacks}</text>",
        reference.0
    )
}

/// The number of each row's entry.
fn write_rows(svg: &mut String, chart: &Chart) -> Result<(), AllocError> {
    for (row, number) in chart.rows.iter().enumerate() {
        FRAME.write_stripe(svg, row)?;
        write_number(svg, row, NUMBERS, *number)?;
    }
    Ok(())
}

/// Embargoes and waiting calls.
fn write_bars(svg: &mut String, chart: &Chart) -> Result<(), AllocError> {
    for bar in chart.bars.closed() {
        write_bar(svg, chart, bar)?;
    }
    for bar in chart.bars.all() {
        if bar.ended.is_none() {
            write_bar(svg, chart, &chart.bars.by_now(bar))?;
        }
    }
    Ok(())
}

/// A bar along its vat's lifeline, as far as it lies in the picture.
fn write_bar(svg: &mut String, chart: &Chart, bar: &Bar) -> Result<(), AllocError> {
    let top = y_from(chart, bar.began);
    let end = match bar.ended {
        Some(number) => y_from(chart, number),
        None => end_of(chart.rows.len()),
    };
    if end <= top {
        return Ok(());
    }
    let height = end.saturating_sub(top);
    let aside = (bar.lane % LANES) * LANE;
    let x = match bar.vat {
        Vat::A => LIFELINE_A - 4 + aside,
        Vat::B => LIFELINE_B - 4 - aside,
    };
    let fill = match bar.cause {
        Cause::Embargo(_) => EMBARGO,
        Cause::Wait(_) => WAIT,
    };
    write!(
        svg,
        "<rect x=\"{x}\" y=\"{top}\" width=\"8\" height=\"{height}\" fill=\"{fill}\"><title>"
    )?;
    write_bar_title(svg, bar)?;
    svg.push_str("</title></rect>\n")
}

fn write_bar_title(svg: &mut String, bar: &Bar) -> Result<(), AllocError> {
    match &bar.cause {
        Cause::Embargo(embargo) => {
            write_embargo(svg, embargo)?;
            write!(svg, "; calls that wait: {}", embargo.waiting)
        }
        Cause::Wait(call) => {
            write_stamp(svg, &call.stamp)?;
            svg.push_str(" waits")
        }
    }
}

/// Those that stand out lie on the others.
fn write_arrows(svg: &mut String, chart: &Chart) -> Result<(), AllocError> {
    write_arrows_of(svg, chart, false)?;
    write_arrows_of(svg, chart, true)
}

fn write_arrows_of(svg: &mut String, chart: &Chart, marked: bool) -> Result<(), AllocError> {
    for arrow in chart.arrows.iter() {
        if arrow.marked == marked {
            write_arrow(svg, arrow)?;
        }
    }
    Ok(())
}

fn write_arrow(svg: &mut String, arrow: &Arrow) -> Result<(), AllocError> {
    let to = arrow.from.other();
    let start = lifeline(arrow.from);
    let end = lifeline(to);
    match (arrow.sent, arrow.got) {
        (Some(sent), Some(got)) => { write_line(svg, arrow, (start, y_of(sent)), (end, y_of(got))) }
        (Some(sent), None) => {
            let y = y_of(sent);
            let cut = (
                FRAME.inside(place_of(arrow.from), STUB),
                y.saturating_add(ROW / 2),
            );
            write_line(svg, arrow, (start, y), cut)
        }
        (None, Some(got)) => {
            let y = y_of(got);
            let cut = (FRAME.inside(place_of(to), STUB), y.saturating_sub(ROW / 2));
            write_line(svg, arrow, cut, (end, y))
        }
        (None, None) => Ok(()),
    }
}

fn write_line(
    svg: &mut String,
    arrow: &Arrow,
    from: (u64, u64),
    to: (u64, u64),
) -> Result<(), AllocError> {
    let (stroke, width) = if arrow.marked {
        (MARKED, 2)
    } else {
        (MESSAGE, 1)
    };
    write!(
        svg,
        "<line x1=\"{}\" y1=\"{}\" x2=\"{}\" y2=\"{}\" stroke=\"{stroke}\" stroke-width=\"{width}\"",
        from.0, from.1, to.0, to.1
    )?;
    write_ends(svg, arrow)
}

/// Whether a line is broken, and its head.
fn write_ends(svg: &mut String, arrow: &Arrow) -> Result<(), AllocError> {
    svg.push_str(dashes_of(arrow))?;
    svg.push_str(head_of(arrow))?;
    svg.push_str("/>\n")
}

fn dashes_of(arrow: &Arrow) -> &'static str {
    if arrow.sent.is_none() || arrow.got.is_none() {
        " stroke-dasharray=\"4 3\""
    } else {
        ""
    }
}

fn head_of(arrow: &Arrow) -> &'static str {
    if arrow.got.is_none() {
        ""
    } else if arrow.marked {
        " marker-end=\"url(#marked)\""
    } else {
        " marker-end=\"url(#head)\""
    }
}

/// What is said, each vat's in a column of its own, which nothing leaves.
fn write_notes(svg: &mut String, chart: &Chart, height: u64) -> Result<(), AllocError> {
    for note in chart.notes.iter() {
        write_mark(svg, note)?;
    }
    write_column(svg, chart, Vat::A, height)?;
    write_column(svg, chart, Vat::B, height)
}

/// A vat's notes, which end or begin at its lifeline.
fn write_column(svg: &mut String, chart: &Chart, vat: Vat, height: u64) -> Result<(), AllocError> {
    let place = place_of(vat);
    let (x, anchor) = FRAME.column(place);
    FRAME.open_column(svg, place, height)?;
    for note in chart.notes.iter() {
        if note.vat == vat {
            write_note(svg, note, x, anchor)?;
        }
    }
    svg.push_str("</svg>\n")
}

/// The sign on the lifeline: a dot, which is hollow if a call waits, a cross, or none.
fn write_mark(svg: &mut String, note: &Note) -> Result<(), AllocError> {
    let (x, y) = (lifeline(note.vat), y_of(note.row));
    let ink = if note.marked { MARKED } else { EVENT };
    match note.mark {
        Mark::Event => write_dot(svg, (x, y), ink, ink),
        Mark::Waiting => write_dot(svg, (x, y), "white", ink),
        Mark::Down => write_cross(svg, x, y),
        Mark::Message | Mark::Beside => Ok(()),
    }
}

fn write_note(svg: &mut String, note: &Note, x: u64, anchor: &str) -> Result<(), AllocError> {
    let fill = match note.mark {
        Mark::Event => EVENT,
        Mark::Message => MESSAGE,
        Mark::Waiting => EVENT,
        Mark::Beside => FAINT,
        Mark::Down => DOWN,
    };
    let fill = if note.marked { MARKED } else { fill };
    let at = (x, y_of(note.row).saturating_add(4));
    write_text(svg, at, anchor, fill, note.label.as_str(), LABEL)
}
