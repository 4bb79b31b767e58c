//! Calls with each request refused in turn.

use crate::Rationed;
use std::alloc::Allocator;

impl<B: Allocator> Rationed<B> {
    /// Makes a call with each request refused in turn, up to one that no longer makes the request,
    /// and returns its number, or nothing if a call before it, or this one, did not end as it
    /// should. The call is given the number, so that it can arm again after its set-up. It returns
    /// nothing if it ended for lack of memory as it should, and otherwise whether it did all that
    /// it should.
    pub fn refuse_each<F: FnMut(u64) -> Option<bool>>(&self, mut call: F) -> Option<u64>
        requires { F.IsAlwaysCallable call }
    {
        for request in 1..1000u64 {
            self.refuse(request);
            let is_whole = call(request);
            let was_refused = self.has_refused();
            self.refuse(0);
            match is_whole {
                None if was_refused => {}
                Some(true) if !was_refused => return Some(request),
                _ => return None,
            }
        }
        None
    }
}
