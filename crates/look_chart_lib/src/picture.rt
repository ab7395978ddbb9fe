//! The picture of a conversation.
use crate::bars::{Bar, Cause, LANES};
use crate::chart::{Chart, Passed, Row, Sign};
use crate::titles::{write_legend, write_title};
use chart_parts::{
    EVENT, FAINT, Foot, Frame, MESSAGE, Place, end_of, write_escaped, write_head, write_number,
    write_text, y_of,
};
use look_pieces::Side;
use std::alloc::{AllocError, Global};
use std::fmt::Write;

/// Messages' numbers end there, and their times.
const NUMBERS: u64 = 42;

const TIMES: u64 = 146;

/// How wide a label may be, in tenths of a pixel.
const LABEL: u16 = 6200;

/// Where the lifelines of the client and of the server stand.
const LEFT: u64 = 790;

const RIGHT: u64 = 1060;

/// Where the client and the server stand, and what is said of them.
const FRAME: Frame = Frame {
    width: 1710,
    outer: TIMES + 8,
    left: LEFT,
    right: RIGHT,
};

/// The height below the last row.
const BOTTOM: u64 = 12;

/// How far a bar is from its lifeline, from the one in the lane before it, and how wide it is.
const AWAY: u64 = 4;

const LANE: u64 = 9;

const BAR: u64 = 7;

/// The height above the first line of the foot for how many have no bar.
const REMARK: u64 = 20;

/// The colours of questions that wait for their Return, of those that wait for their Finish, of embargoes, of breaches.
pub(crate) const ASKED: &str = "#a9c4e8";

pub(crate) const RETURNED: &str = "#cfdcf1";

pub(crate) const EMBARGO: &str = "#f2c879";

pub(crate) const BREACH: &str = "#b91c1c";

/// The picture as SVG.
pub(crate) fn picture(alloc: Global, chart: &Chart) -> Result<String, AllocError> {
    let foot = foot_of(alloc, chart)?;
    let mut svg = String::new(alloc);
    write_picture(&mut svg, chart, &foot)?;
    Ok(svg)
}

/// Where the foot begins.
fn top_of_foot(chart: &Chart) -> u64 {
    let end = end_of(chart.rows.len());
    if chart.bars.hidden > 0 {
        end.saturating_add(REMARK)
    } else {
        end
    }
}

/// The labels that are cut, whole.
fn foot_of(alloc: Global, chart: &Chart) -> Result<Foot, AllocError> {
    let mut foot = Foot::new(alloc, top_of_foot(chart));
    for row in chart.rows.iter() {
        let whose = match row.side {
            Side::Client => "c",
            Side::Server => "s",
        };
        match row.sign {
            Sign::Message(passed) => {
                foot.add(passed.number, whose, row.words.short.as_str(), LABEL)?
            }
            Sign::Breach(number) | Sign::End(number) => {
                foot.add(number, whose, row.words.short.as_str(), LABEL)?
            }
            Sign::Pause(_) => {}
        }
    }
    Ok(foot)
}

fn write_picture(svg: &mut String, chart: &Chart, foot: &Foot) -> Result<(), AllocError> {
    let height = foot.end().saturating_add(BOTTOM);
    let names = (
        chart.wording.ends.client.as_str(),
        chart.wording.ends.server.as_str(),
    );
    let rows = chart.rows.len();
    FRAME.open(svg, height)?;
    write_head(svg, "head", MESSAGE)?;
    write_head(svg, "broken", BREACH)?;
    FRAME.write_ground(svg, height)?;
    write_title(svg, chart)?;
    write_legend(svg)?;
    write_fronts(svg, chart)?;
    FRAME.write_lifelines(svg, rows, names)?;
    write_bars(svg, chart)?;
    write_arrows(svg, chart)?;
    FRAME.write_again(svg, rows, names)?;
    write_column(svg, chart, Side::Client, height)?;
    write_column(svg, chart, Side::Server, height)?;
    write_hidden(svg, chart)?;
    svg.push_str(foot.svg())?;
    svg.push_str("</svg>\n")
}

fn place_of(side: Side) -> Place {
    match side {
        Side::Client => Place::Left,
        Side::Server => Place::Right,
    }
}

/// The number and the time of each row.
fn write_fronts(svg: &mut String, chart: &Chart) -> Result<(), AllocError> {
    for (place, row) in chart.rows.iter().enumerate() {
        FRAME.write_stripe(svg, place)?;
        if let Sign::Message(passed) = row.sign {
            write_number(svg, place, NUMBERS, passed.number)?;
            write_time(svg, place, passed.time)?;
        }
    }
    Ok(())
}

/// A time since the first piece, in milliseconds.
fn write_time(svg: &mut String, row: usize, time: Option<u64>) -> Result<(), AllocError> {
    let Some(time) = time else {
        return Ok(());
    };
    let y = y_of(row).saturating_add(4);
    let whole = time / 1_000;
    let hundredths = time % 1_000 / 10;
    writeln!(
        svg,
        "<text x=\"{TIMES}\" y=\"{y}\" text-anchor=\"end\" font-size=\"11\" fill=\"{FAINT}\">{whole}.{hundredths:02} ms</text>"
    )
}

/// Questions and embargoes.
fn write_bars(svg: &mut String, chart: &Chart) -> Result<(), AllocError> {
    for bar in chart.bars.all() {
        write_bar(svg, chart, bar)?;
    }
    Ok(())
}

/// The height of a row; of one behind the last, of their end.
fn y_at(chart: &Chart, row: usize) -> u64 {
    let rows = chart.rows.len();
    if row < rows { y_of(row) } else { end_of(rows) }
}

fn write_bar(svg: &mut String, chart: &Chart, bar: &Bar) -> Result<(), AllocError> {
    let rows = chart.rows.len();
    let top = y_at(chart, bar.began);
    let end = y_at(chart, bar.ended.unwrap_or(rows));
    match bar.cause {
        Cause::Embargo(_, _) => write_part(svg, bar, EMBARGO, (top, end), ""),
        Cause::Question(_, _) => {
            let middle = y_at(chart, bar.returned.unwrap_or(rows)).min(end);
            write_part(svg, bar, ASKED, (top, middle), ", no Return yet")?;
            write_part(svg, bar, RETURNED, (middle, end), ", not finished")
        }
    }
}

/// Where a bar stands.
fn x_of(bar: &Bar) -> u64 {
    let lane = (bar.lane.unwrap_or(0) % LANES) as u64;
    match bar.side {
        Side::Client => LEFT + AWAY + lane * LANE,
        Side::Server => RIGHT - AWAY - BAR - lane * LANE,
    }
}

/// A part of a bar from one height to another, if it has any.
fn write_part(
    svg: &mut String,
    bar: &Bar,
    fill: &str,
    from_to: (u64, u64),
    how: &str,
) -> Result<(), AllocError> {
    let (top, end) = from_to;
    if end <= top {
        return Ok(());
    }
    let x = x_of(bar);
    let height = end - top;
    let (what, id, number) = match bar.cause {
        Cause::Question(id, number) => ("question", id, number),
        Cause::Embargo(id, number) => ("embargo", id, number),
    };
    writeln!(
        svg,
        "<rect x=\"{x}\" y=\"{top}\" width=\"{BAR}\" height=\"{height}\" fill=\"{fill}\"><title>{what} {id} of {number}{how}</title></rect>"
    )
}

/// The arrows of messages, and the pauses between them.
fn write_arrows(svg: &mut String, chart: &Chart) -> Result<(), AllocError> {
    for (place, row) in chart.rows.iter().enumerate() {
        match row.sign {
            Sign::Message(passed) => write_arrow(svg, place, row.side, passed)?,
            Sign::Pause(micros) => write_pause(svg, place, micros)?,
            Sign::Breach(_) | Sign::End(_) => {}
        }
    }
    Ok(())
}

fn write_arrow(svg: &mut String, row: usize, side: Side, passed: Passed) -> Result<(), AllocError> {
    let start = FRAME.lifeline(place_of(side));
    let end = FRAME.lifeline(place_of(side.other()));
    let y = y_of(row);
    let (stroke, head) = if passed.is_broken {
        (BREACH, "broken")
    } else {
        (MESSAGE, "head")
    };
    let dashes = if passed.is_return {
        " stroke-dasharray=\"5 3\""
    } else {
        ""
    };
    writeln!(
        svg,
        "<line x1=\"{start}\" y1=\"{y}\" x2=\"{end}\" y2=\"{y}\" stroke=\"{stroke}\"{dashes} marker-end=\"url(#{head})\"/>"
    )
}

/// How long nothing passed, between the lifelines.
fn write_pause(svg: &mut String, row: usize, micros: u64) -> Result<(), AllocError> {
    let x = (LEFT + RIGHT) / 2;
    let y = y_of(row).saturating_add(4);
    let millis = micros / 1_000;
    writeln!(
        svg,
        "<text x=\"{x}\" y=\"{y}\" text-anchor=\"middle\" fill=\"{FAINT}\" stroke=\"white\" stroke-width=\"4\" paint-order=\"stroke\">{millis} ms</text>"
    )
}

/// What an end said, in a column of its own, which nothing leaves.
fn write_column(
    svg: &mut String,
    chart: &Chart,
    side: Side,
    height: u64,
) -> Result<(), AllocError> {
    let place = place_of(side);
    let (x, anchor) = FRAME.column(place);
    FRAME.open_column(svg, place, height)?;
    for (at, row) in chart.rows.iter().enumerate() {
        if row.side == side {
            write_words(svg, at, row, x, anchor)?;
        }
    }
    svg.push_str("</svg>\n")
}

/// What is said in a row; all of it where one points at it.
fn write_words(
    svg: &mut String,
    at: usize,
    row: &Row,
    x: u64,
    anchor: &str,
) -> Result<(), AllocError> {
    let fill = match row.sign {
        Sign::Pause(_) => return Ok(()),
        Sign::Breach(_) => BREACH,
        Sign::End(_) => BREACH,
        Sign::Message(passed) => if passed.is_broken { BREACH } else { EVENT },
    };
    svg.push_str("<g><title>")?;
    write_escaped(svg, row.words.whole.as_str())?;
    svg.push_str("</title>\n")?;
    let y = y_of(at).saturating_add(4);
    write_text(svg, (x, y), anchor, fill, row.words.short.as_str(), LABEL)?;
    svg.push_str("</g>\n")
}

/// How many questions and embargoes have no bar.
fn write_hidden(svg: &mut String, chart: &Chart) -> Result<(), AllocError> {
    let hidden = chart.bars.hidden;
    if hidden == 0 {
        return Ok(());
    }
    let y = end_of(chart.rows.len()).saturating_add(18);
    writeln!(
        svg,
        "<text x=\"12\" y=\"{y}\" fill=\"{FAINT}\">questions and embargoes without a bar (more than {LANES} at once at an end): {hidden}</text>"
    )
}
