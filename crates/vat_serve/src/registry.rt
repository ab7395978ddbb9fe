//! Registries.

use std::alloc::Global;
use vat::{PromiseId, RefId};

/// The interface's number, and those of its methods.
pub const REGISTRY: u64 = 0xa5e1_c0ff_ee00_0004;

pub const MAKE_COUNTER: u16 = 0;

pub const MAKE_PRINTER: u16 = 1;

pub const MAKE_SINK: u16 = 2;

pub const MAKE_REGISTRY: u16 = 3;

pub const ECHO: u16 = 4;

pub const FAIL: u16 = 5;

pub const SAME: u16 = 6;

pub const AWAIT_PRINTER: u16 = 7;

pub const PUBLISH: u16 = 8;

pub const TELL: u16 = 9;

pub const FETCH: u16 = 10;

pub const AHEAD: u16 = 11;

pub const FORWARD: u16 = 12;

pub const SUBSCRIBE: u16 = 13;

pub const BROADCAST: u16 = 14;

pub const UNSUBSCRIBE: u16 = 15;

/// What a registry keeps: the promise of the printer that is published next, if somebody awaits it, and the printers that
/// subscribed.
#[derive(Drop)]
pub struct Registry {
    pub awaited: Option<(PromiseId, RefId)>,
    pub subscribers: Vec<RefId>,
}

impl Registry {
    pub fn new(alloc: Global) -> Registry {
        Registry {
            awaited: None,
            subscribers: Vec::new(alloc),
        }
    }
}
