//! What is printed of a script for two threads; how the work of both vats ends, and what is told of it then; that a growth that
//! is refused is told.
mod ends;
mod gates;
mod need;
mod printing;
mod rows;
mod worked;
