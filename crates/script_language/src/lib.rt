//! The lines of scripts that drive two vats, what the names of a script stand for, and the commands that lines give.
//!
//! - `name.rt`: names. `line.rt`: the lines as types, and their reader. `fault.rt`: all faults.
//! - `parts.rt` parts a line at a byte, and a script at the ends of its lines, with the words of each; `words.rt` has what
//!   one word says, `commands.rt` what is asked of a vat, `reading.rt` what the words of a line say together, `script.rt` a
//!   whole script.
//! - `names.rt` is what a script's user sees of names. Beneath it `bound.rt` is one table of names, an ordered map that
//!   contracts see as a finite map. `handed.rt` keeps which references came with tasks and outcomes. `bindings.rt` finds and
//!   binds at one vat. `given_commands.rt` makes the commands, with the payloads and the exception of `carried.rt`.
//! - `act.rt`: what a line of any kind does. `open_work.rt`: what is not over yet at a vat that plays a script.
//!
//! The definitions are functions of the line's bytes: `Words` has each word, or what is wrong with it, `Lines` each line,
//! `Scripts` a whole script, `Bindings` the names and what lines ask by them, `Acting` what each line does. A fault is the
//! first from the left, since each word's result is looked at before the next one's.
#![tactic(auto)]

mod act;
mod bindings;
mod bound;
mod carried;
mod commands;
mod fault;
mod given_commands;
mod handed;
mod line;
mod name;
mod names;
mod open_work;
mod parts;
mod reading;
mod script;
mod words;

pub use act::Act;
pub use fault::{GiveFault, LineFault, NameFault, ReadFault, ScriptFault};
pub use line::{CallLine, FieldLine, GotLine, Line, LineCommand, Program, TakeLine};
pub use name::Name;
pub use names::Names;
pub use open_work::{Closes, OpenWork};
pub use script::read_script;
