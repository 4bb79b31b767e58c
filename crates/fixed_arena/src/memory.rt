ghost use Rattle.std.specs.Prelude.{◌≡◌, ◌-◌, ◌%◌, ◌≤◌};
ghost use Rattle.fixed_arena.specs.Units.{IsWhole, bytes_at};

use core::mem::replace_with;
use std::marker::Model;

/// `size` bytes in which nothing lies, at a pointer that is aligned to 16; `size` is a multiple of
/// 16, below 2 ^ 63.
#[repr(C)]
#[derive(Drop)]
pub struct Memory {
    pub ptr: *mut u8,
    pub size: usize,
    ghost fits: { IsWhole size },
}

impl Model for Memory {
    ghost also_owns = { λ m. bytes_at m.ptr m.size };
}

impl Memory {
    /// Takes all of it, and leaves none in its place.
    pub(crate) fn take(&mut self) -> Memory
        ensures { (result.size ≡ self.old.size) × (self.new.size ≡ 0) }
    {
        replace_with(self, 0, |memory, none| unsafe { memory.cut(none) })
    }

    /// The size, and the memory again.
    pub(crate) fn with_size(self) -> (usize, Memory)
        ensures { (result.0 ≡ self.size) × (result.1 ≡ self) }
    {
        let Memory { ptr, size } = self;
        (size, Memory { ptr, size })
    }

    /// The first bytes, and the others.
    unsafe fn cut(self, size: usize) -> (Memory, Memory)
        requires { (size % 16 ≡ 0) × (size ≤ self.size) }
        ensures { (result.0.size ≡ size) × (result.1.size ≡ self.size - size) }
    {
        let Memory { ptr, size: all } = self;
        let rest = ptr.add(size);
        let left = all - size;
        (
            Memory { ptr, size },
            Memory {
                ptr: rest,
                size: left,
            },
        )
    }
}
