//! The count of requests, and the one among them to refuse.

ghost use Rattle.std.specs.Prelude.{◌≡◌, ◌≤◌, ◌<◌, ◌↔◌, IsTrue};

use std::sync::atomic::{AtomicU64, Ordering};

/// The number of requests since the ration was set, and the number of the one to refuse.
#[derive(Drop)]
pub struct Ration {
    asked: AtomicU64,
    number: AtomicU64,
}

impl Ration {
    /// No request yet, and none to refuse.
    pub fn new() -> Self {
        Ration {
            asked: AtomicU64::new(0),
            number: AtomicU64::new(0),
        }
    }

    /// Starts the count again. Until the last store no request is refused.
    pub fn set(&self, number: u64) {
        self.number.store(0, Ordering::SeqCst);
        self.asked.store(0, Ordering::SeqCst);
        self.number.store(number, Ordering::SeqCst);
    }

    /// The number of requests.
    pub fn asked(&self) -> u64 {
        self.asked.load(Ordering::SeqCst)
    }

    /// Whether the request to refuse has been counted.
    pub fn has_refused(&self) -> bool {
        is_among(self.number.load(Ordering::SeqCst), self.asked())
    }

    /// Counts a request, and returns whether it is the one to refuse.
    pub fn refuses(&self) -> bool {
        let turn = self.asked.fetch_add(1, Ordering::SeqCst).wrapping_add(1);
        is_refused(turn, self.number.load(Ordering::SeqCst))
    }
}

/// Whether request `turn` is refused, if request `number` is to be, or none if that is 0.
fn is_refused(turn: u64, number: u64) -> bool
    ensures that_one_alone { IsTrue result ↔ ((0 < number) × (turn ≡ number)) }
{
    number != 0 && turn == number
}

/// Whether request `number` is one of the first `asked`.
fn is_among(number: u64, asked: u64) -> bool
    ensures from_that_one_on { IsTrue result ↔ ((0 < number) × (number ≤ asked)) }
{
    number != 0 && number <= asked
}
