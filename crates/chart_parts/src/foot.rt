//! The labels that are cut, whole.

use crate::signs::FAINT;
use crate::text::{is_cut, width_of, write_letter};
use std::alloc::{AllocError, Global};
use std::fmt::Write;

/// How wide a line may be, in tenths of a pixel, and where a space ends it.
const LINE: u64 = 13000;

const SPACE: u64 = 12000;

/// The height of a line.
const HEIGHT: u64 = 18;

/// How far the first line is from what is above it.
const GAP: u64 = 8;

/// Where labels begin; before them stands what they are of.
const LABELS: u64 = 76;

/// The labels that are cut, whole, at a picture's foot.
#[derive(Drop)]
pub struct Foot {
    svg: String,
    /// The height of the last line.
    end: u64,
}

impl Foot {
    /// Below that height, with no label. Takes no memory.
    pub fn new(alloc: Global, top: u64) -> Foot {
        Foot {
            svg: String::new(alloc),
            end: top.saturating_add(GAP),
        }
    }

    /// What stands at the foot.
    pub fn svg(&self) -> &str {
        self.svg.as_str()
    }

    /// The height of the last line.
    pub fn end(&self) -> u64 {
        self.end
    }

    /// A label, if there is no place for all of it, whole; before it a number, and whose it is, as SVG has it. The place is
    /// in tenths of a pixel.
    pub fn add(
        &mut self,
        number: u64,
        whose: &str,
        label: &str,
        place: u16,
    ) -> Result<(), AllocError> {
        if !is_cut(label, place) {
            return Ok(());
        }
        self.end = self.end.saturating_add(HEIGHT);
        writeln!(
            self.svg,
            "<text x=\"{}\" y=\"{}\" text-anchor=\"end\" font-size=\"11\" fill=\"{FAINT}\">{number} {whose}</text>",
            LABELS - 8,
            self.end
        )?;
        self.begin_line()?;
        self.write_lines(label)?;
        self.svg.push_str("</text>\n")
    }

    fn begin_line(&mut self) -> Result<(), AllocError> {
        write!(self.svg, "<text x=\"{LABELS}\" y=\"{}\">", self.end)
    }

    /// A label, over as many lines as it takes.
    fn write_lines(&mut self, label: &str) -> Result<(), AllocError> {
        let mut width: u64 = 0;
        for letter in label.chars() {
            width = width.saturating_add(width_of(letter));
            if width > LINE || letter == ' ' && width > SPACE {
                self.svg.push_str("</text>\n")?;
                self.end = self.end.saturating_add(HEIGHT);
                self.begin_line()?;
                width = width_of(letter);
            }
            write_letter(&mut self.svg, letter)?;
        }
        Ok(())
    }
}
