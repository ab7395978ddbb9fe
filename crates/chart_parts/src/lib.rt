//! Parts of sequence diagrams in SVG: of a trace (`trace_chart_lib`), and of a conversation (`look_chart_lib`).
//!
//! - `text.rt` writes a text as SVG has it, cut if it is too wide. `foot.rt` has the labels that were cut, whole.
//! - `grid.rt`: how high each row stands. `frame.rt`: what a picture lies on, its two lifelines and their names, and its rows.
//! - `signs.rt`: dots, crosses, bars and the words of a legend.
//! - `number.rt`: numbers among a program's words.
#![tactic(auto)]

mod foot;
mod frame;
mod grid;
mod number;
mod signs;
mod text;

pub use foot::Foot;
pub use frame::{Frame, Place, write_number};
pub use grid::{PAGE, ROW, TOP, end_of, y_of};
pub use number::read_number;
pub use signs::{
    EVENT, FAINT, MESSAGE, write_bar_sign, write_cross, write_dot, write_head, write_sign,
    write_text,
};
pub use text::{is_cut, width_of, write_escaped, write_label, write_letter};
