//! Vats that go down, events in a row, and running out of memory, of two vats and of two cores. What scripts do to two vats is in
//! `scenes_player`.
mod cores;
mod downs;
mod events;
mod need;
