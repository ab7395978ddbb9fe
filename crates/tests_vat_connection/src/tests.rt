//! Scenes of two vats, as data: what each does, in order, and what it has to answer. References, calls, tasks and promises are
//! numbered from 0 (docs/messages.md), so the numbers can be written down.
//!
//! - `asks.rt`: what is asked of a vat. `told.rt`: what it tells. `scene.rt`: what is done with a connection, and how a scene is
//!   played.
//! - The scenes: `conversations.rt`, `streams.rt`, `limits.rt`, `large.rt`, `cancelled.rt`, `released.rt`,
//!   `going_down.rt`, and `hosts.rt` with hosts in the place of connections.
mod asks;
mod cancelled;
mod conversations;
mod going_down;
mod hosts;
mod large;
mod limits;
mod released;
mod scene;
mod streams;
mod told;
