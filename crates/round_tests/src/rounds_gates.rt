//! Gates that look at who enters.
use relay_rounds::Gate;
use std::hint::spin_loop;
use std::sync::atomic::{AtomicBool, AtomicUsize, Ordering};

/// Counts how often each of the first three pieces is entered.
#[derive(Drop)]
pub(crate) struct Counts {
    pub(crate) entered: [AtomicUsize; 3],
}

impl Counts {
    /// How often each of the three was entered so far.
    pub(crate) fn counts(&self) -> [usize; 3] {
        [
            self.entered[0].load(Ordering::SeqCst),
            self.entered[1].load(Ordering::SeqCst),
            self.entered[2].load(Ordering::SeqCst),
        ]
    }
}

impl Gate for Counts {
    fn enter(&self, piece: usize) {
        if piece < 3 {
            let _before = self.entered[piece].fetch_add(1, Ordering::SeqCst);
        }
    }
}

/// Holds pieces 0 and 2 until both were entered, but no longer than ten million turns.
#[derive(Drop)]
pub(crate) struct Meeting {
    pub(crate) first: AtomicBool,
    pub(crate) third: AtomicBool,
    pub(crate) late: AtomicBool,
}

impl Gate for Meeting {
    fn enter(&self, piece: usize) {
        if piece == 0 {
            self.first.store(true, Ordering::SeqCst);
        } else if piece == 2 {
            self.third.store(true, Ordering::SeqCst);
        } else {
            return;
        }
        for _ in 0..10_000_000 {
            if self.first.load(Ordering::SeqCst) && self.third.load(Ordering::SeqCst) {
                return;
            }
            spin_loop();
        }
        self.late.store(true, Ordering::SeqCst);
    }
}
