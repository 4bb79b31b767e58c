//! The flags of a channel, by name.

use pp_channel::Flags;

/// No session is open.
pub const INACTIVE: Flags = Flags {
    active: false,
    full: false,
};

/// A session is open, and no word waits.
pub const EMPTY: Flags = Flags {
    active: true,
    full: false,
};

/// A session is open, and a word waits.
pub const FULL: Flags = Flags {
    active: true,
    full: true,
};
