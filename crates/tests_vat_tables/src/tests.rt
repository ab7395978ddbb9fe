//! The tables of a vat, the pool of its waiting calls, and the nodes by which exports are kept.
//!
//! A step says what is done with a table, and what it has to answer. One function for each table takes a step, so that a proof
//! looks at one call of the table at a time.
mod answers;
mod exports;
mod nodes;
mod pool;
mod questions;
