ghost use Rattle.std.specs.Prelude.{◌≡◌, ◌≤◌, ◌⊎◌, IfSome};
ghost use Rattle.fixed_arena.specs.Units.{IsWhole, whole_block_token};

use crate::Memory;
use std::alloc::{AllocError, Allocator};
use std::cell::Cell;

/// Hands out a memory as one block, and keeps it while the block is not out.
#[derive(Drop)]
pub struct Slot {
    /// The size of the memory in bytes (decimal).
    pub size: usize,
    memory: Cell<Option<Memory>>,
    ghost fits: { IsWhole size },
}

impl Slot {
    /// Takes the memory out of its place.
    pub fn take_from(memory: &mut Memory) -> Slot
        ensures { (result.size ≡ memory.old.size) × (memory.new.size ≡ 0) }
    {
        let (size, memory) = memory.take().with_size();
        Slot {
            size,
            memory: Cell::new(Some(memory)),
        }
    }

    /// Puts the memory into this place, unless its block is out.
    pub fn give_back(self, memory: &mut Memory)
        ensures { (memory.new.size ≡ self.size) ⊎ (memory.new ≡ memory.old) }
    {
        let Slot { size, memory: cell } = self;
        let Some(back) = cell.into_inner() else {
            return;
        };
        let (room, back) = back.with_size();
        if room == size {
            *memory = back;
        }
    }

    fn size(&self) -> usize
        ensures { result ≡ self.now.size }
    {
        self.size
    }

    /// The memory, if its block is not out and is enough for a request.
    fn take(&self, size: usize, align: usize) -> Option<Memory>
        ensures { IfSome result (λ m. (m.size ≡ self.now.size) × (size ≤ m.size) × (align ≤ 16)) }
    {
        if align > 16 {
            return None;
        }
        let (room, memory) = self.memory.replace(None)?.with_size();
        if room != self.size || size > room {
            self.memory.set(Some(memory));
            return None;
        }
        Some(memory)
    }

    fn put(&self, memory: Memory) {
        self.memory.set(Some(memory));
    }
}

unsafe impl Allocator for Slot {
    ghost dealloc_token = { λ slot. whole_block_token slot.size };

    fn allocate(&self, size: usize, align: usize) -> Result<*mut u8, AllocError> {
        match self.take(size, align) {
            Some(Memory { ptr, size: _ }) => Ok(ptr),
            None => Err(AllocError),
        }
    }

    unsafe fn deallocate(&self, ptr: *mut u8, _size: usize, _align: usize) {
        let size = self.size();
        self.put(Memory { ptr, size });
    }
}
