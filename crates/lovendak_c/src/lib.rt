//! The vat for C: a static library without input and output, threads, callbacks or global state (docs/languages.md). The header is
//! `bindings/c/lovendak.h`.
//!
//! - `raw.rt`, `handle.rt`: `Handle`, which C keeps: the address of a boxed desk (of `lovendak_c_desk`), or of none.
//! - `life.rt`: a vat is made and freed. `streams.rt`: the bytes of both directions. `events.rt`: events. `queries.rt`: what
//!   is asked of the vat.
//! - The commands by name: `calls.rt`, `refs.rt`, `promises.rt`, `tasks.rt`. `payloads.rt`: payloads made and looked into.
//! - `codes.rt`: the code that each call answers.
//! - Trees, which need no vat: `tree_raw.rt`, `tree_handle.rt`: `TreeHandle`, which C keeps: the address of boxed trees (of
//!   `lovendak_c_trees`), or of none. `trees.rt`: contents are built. `tree_paths.rt`: payloads are looked into. `tree_codes.rt`: the
//!   code that each of these calls answers.
//!
//! Each call takes the desk out of its handle, has the desk do what it is for, and puts it back. So its contract is that of the
//! desk's call, on what the handle has (`specs/Calls.antt`).
#![tactic(auto)]

mod calls;
mod codes;
mod events;
mod handle;
mod life;
mod payloads;
mod promises;
mod queries;
mod raw;
mod refs;
mod streams;
mod tasks;
#[cfg(test)]
mod tests;
mod tree_codes;
mod tree_handle;
mod tree_paths;
mod tree_raw;
mod trees;
