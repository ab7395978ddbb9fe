//! Lines, names, and scripts of many lines.
mod lines;
mod long;
mod names;
