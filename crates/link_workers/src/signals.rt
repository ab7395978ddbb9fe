use rpc_msg::Vat;
use std::sync::atomic::{AtomicBool, Ordering};

/// What two workers tell each other beside the frames.
#[derive(Drop)]
pub struct Signals {
    a_is_done: AtomicBool,
    b_is_done: AtomicBool,
    stop: AtomicBool,
}

impl Signals {
    /// Nothing is told yet.
    pub fn new() -> Self {
        Signals {
            a_is_done: AtomicBool::new(false),
            b_is_done: AtomicBool::new(false),
            stop: AtomicBool::new(false),
        }
    }

    /// The worker of that vat is done.
    pub(crate) fn done(&self, vat: Vat) {
        match vat {
            Vat::A => self.a_is_done.store(true, Ordering::SeqCst),
            Vat::B => self.b_is_done.store(true, Ordering::SeqCst),
        }
    }

    pub(crate) fn all_done(&self) -> bool {
        self.a_is_done.load(Ordering::SeqCst) && self.b_is_done.load(Ordering::SeqCst)
    }

    /// A worker ended before both were done.
    pub(crate) fn stop(&self) {
        self.stop.store(true, Ordering::SeqCst);
    }

    pub(crate) fn is_stopped(&self) -> bool {
        self.stop.load(Ordering::SeqCst)
    }
}
