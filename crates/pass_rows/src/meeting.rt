//! Threads that meet.

use std::sync::atomic::{AtomicBool, Ordering};
use std::thread::yield_now;

/// How many turns a thread waits for another at most.
const TURNS: u32 = 10_000_000;

/// A place where two threads meet once.
#[derive(Drop)]
pub struct Meeting {
    first: AtomicBool,
    second: AtomicBool,
}

impl Meeting {
    pub fn new() -> Self {
        Meeting {
            first: AtomicBool::new(false),
            second: AtomicBool::new(false),
        }
    }

    /// Tells that the first thread is here, or the second, and waits for the other; whether that came.
    pub fn come(&self, is_first: bool) -> bool {
        let (own, other) = if is_first {
            (&self.first, &self.second)
        } else {
            (&self.second, &self.first)
        };
        own.store(true, Ordering::SeqCst);
        for _ in 0..TURNS {
            if other.load(Ordering::SeqCst) {
                return true;
            }
            yield_now();
        }
        false
    }
}
