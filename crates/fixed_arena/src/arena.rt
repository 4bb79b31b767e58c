use crate::Slot;
use bumpalo::Bump;

const PAGE: usize = 4096;

/// An arena in as much of the slot's memory as it can use.
pub fn arena_in(slot: &Slot) -> Bump<&Slot> {
    // An arena with a capacity of whole pages less 64 bytes asks for these pages less 16.
    let capacity = (slot.size.saturating_add(16) / PAGE * PAGE).saturating_sub(64);
    Bump::try_with_capacity(slot, capacity).unwrap_or_else(|_| Bump::new(slot))
}
