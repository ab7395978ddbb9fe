//! What a picture lies on, its two lifelines, and its rows.
use crate::grid::{PAGE, ROW, end_of, y_of};
use crate::signs::{EVENT, FAINT};
use crate::text::write_escaped;
use std::alloc::AllocError;
use std::fmt::Write;

/// What is said stands outside the lifelines, that far from them. Between them are the arrows alone.
const ASIDE: u64 = 14;

/// One of the two lifelines.
#[derive(Clone, Copy, Debug, PartialEq, Eq, Drop)]
pub enum Place {
    Left,
    Right,
}

impl Place {
    /// The other one.
    pub fn other(self) -> Place {
        match self {
            Place::Left => Place::Right,
            Place::Right => Place::Left,
        }
    }
}

/// Where the parts of a picture stand.
#[derive(Clone, Copy, Debug, PartialEq, Eq, Drop)]
pub struct Frame {
    /// How wide the picture is.
    pub width: u64,
    /// Where the left column of labels begins.
    pub outer: u64,
    /// Where the left lifeline stands.
    pub left: u64,
    /// Where the right one does.
    pub right: u64,
}

impl Frame {
    /// Where a lifeline stands.
    pub fn lifeline(&self, place: Place) -> u64 {
        match place {
            Place::Left => self.left,
            Place::Right => self.right,
        }
    }

    /// That far from a lifeline, towards the other.
    pub fn inside(&self, place: Place, far: u64) -> u64 {
        match place {
            Place::Left => self.left.saturating_add(far),
            Place::Right => self.right.saturating_sub(far),
        }
    }

    /// Begins a picture of that height.
    pub fn open(&self, svg: &mut String, height: u64) -> Result<(), AllocError> {
        let width = self.width;
        writeln!(
            svg,
            "<svg xmlns=\"http://www.w3.org/2000/svg\" width=\"{width}\" height=\"{height}\" viewBox=\"0 0 {width} {height}\" font-family=\"Helvetica, Arial, sans-serif\" font-size=\"12\">"
        )
    }

    /// What a picture of that height lies on.
    pub fn write_ground(&self, svg: &mut String, height: u64) -> Result<(), AllocError> {
        let width = self.width;
        writeln!(
            svg,
            "<rect width=\"{width}\" height=\"{height}\" fill=\"white\"/>"
        )
    }

    /// Every second row has a ground of its own, to lead the eye.
    pub fn write_stripe(&self, svg: &mut String, row: usize) -> Result<(), AllocError> {
        if row % 2 == 0 {
            return Ok(());
        }
        let width = self.width;
        let top = y_of(row).saturating_sub(ROW / 2);
        writeln!(
            svg,
            "<rect y=\"{top}\" width=\"{width}\" height=\"{ROW}\" fill=\"#f3f5f8\"/>"
        )
    }

    /// The lifelines along so many rows, with their names.
    pub fn write_lifelines(
        &self,
        svg: &mut String,
        rows: usize,
        names: (&str, &str),
    ) -> Result<(), AllocError> {
        let end = end_of(rows);
        write_lifeline(svg, self.left, end)?;
        write_lifeline(svg, self.right, end)?;
        self.write_names(svg, 76, names)
    }

    /// The lifelines' names again, in the bands of a picture of so many rows.
    pub fn write_again(
        &self,
        svg: &mut String,
        rows: usize,
        names: (&str, &str),
    ) -> Result<(), AllocError> {
        for row in 0..rows {
            if row > 0 && row % PAGE == 0 {
                self.write_names(svg, y_of(row).saturating_sub(ROW), names)?;
            }
        }
        Ok(())
    }

    fn write_names(&self, svg: &mut String, y: u64, names: (&str, &str)) -> Result<(), AllocError> {
        write_name(svg, self.left, y, names.0)?;
        write_name(svg, self.right, y, names.1)
    }

    /// Where the labels beside a lifeline begin or end in their column, and which of both.
    pub fn column(&self, place: Place) -> (u64, &'static str) {
        match place {
            Place::Left => (self.column_width(place), "end"),
            Place::Right => (0, "start"),
        }
    }

    fn column_width(&self, place: Place) -> u64 {
        match place {
            Place::Left => self.left.saturating_sub(ASIDE).saturating_sub(self.outer),
            Place::Right => self.width.saturating_sub(self.right).saturating_sub(ASIDE),
        }
    }

    /// Begins the column of labels beside a lifeline, which nothing leaves.
    pub fn open_column(
        &self,
        svg: &mut String,
        place: Place,
        height: u64,
    ) -> Result<(), AllocError> {
        let left = match place {
            Place::Left => self.outer,
            Place::Right => self.right.saturating_add(ASIDE),
        };
        let width = self.column_width(place);
        writeln!(
            svg,
            "<svg x=\"{left}\" width=\"{width}\" height=\"{height}\">"
        )
    }
}

fn write_lifeline(svg: &mut String, x: u64, end: u64) -> Result<(), AllocError> {
    writeln!(
        svg,
        "<line x1=\"{x}\" y1=\"84\" x2=\"{x}\" y2=\"{end}\" stroke=\"{FAINT}\"/>"
    )
}

fn write_name(svg: &mut String, x: u64, y: u64, name: &str) -> Result<(), AllocError> {
    write!(
        svg,
        "<text x=\"{x}\" y=\"{y}\" text-anchor=\"middle\" font-weight=\"bold\" font-size=\"14\" fill=\"{EVENT}\" stroke=\"white\" stroke-width=\"4\" paint-order=\"stroke\">"
    )?;
    write_escaped(svg, name)?;
    svg.push_str("</text>\n")
}

/// The number of a row, which ends there.
pub fn write_number(svg: &mut String, row: usize, end: u64, number: u64) -> Result<(), AllocError> {
    writeln!(
        svg,
        "<text x=\"{end}\" y=\"{}\" text-anchor=\"end\" font-size=\"11\" fill=\"{FAINT}\">{number}</text>",
        y_of(row).saturating_add(4)
    )
}
