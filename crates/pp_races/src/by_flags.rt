//! Something for each of the flags of a channel.

ghost use Rattle.std.specs.Prelude.{◌≡◌, ◌<◌};
ghost use Rattle.pp_channel.specs.declared.flags.Flags.{Flags};
ghost use Rattle.pp_races.specs.ByFlags.{all, at, number_of, set_count};

use pp_channel::Flags;

/// How many sets of flags there are (decimal).
pub(crate) const SETS: usize = 16;

/// One of each of the flags, also of those that no channel has: of `bool`, a set of flags.
#[derive(Clone, Copy)]
pub(crate) struct ByFlags<T> {
    pub(crate) inactive: T,
    pub(crate) inactive_full: T,
    pub(crate) empty: T,
    pub(crate) full: T,
}

impl<T: Copy> ByFlags<T> {
    /// What a function answers of each.
    pub(crate) fn of<F: Fn(Flags) -> T>(value: F) -> ByFlags<T>
        requires { F.IsAlwaysCallable value }
        ensures { (flags : Flags) → F.post value flags (at result flags) }
    {
        let of = |active, full| value(Flags { active, full });
        ByFlags {
            inactive: of(false, false),
            inactive_full: of(false, true),
            empty: of(true, false),
            full: of(true, true),
        }
    }

    /// The same of each.
    pub(crate) fn all(value: T) -> ByFlags<T>
        ensures { result ≡ all value }
    {
        ByFlags {
            inactive: value,
            inactive_full: value,
            empty: value,
            full: value,
        }
    }

    /// That of these flags.
    pub(crate) fn at(&self, flags: Flags) -> T
        ensures { result ≡ at self.now flags }
    {
        match (flags.active, flags.full) {
            (false, false) => self.inactive,
            (false, true) => self.inactive_full,
            (true, false) => self.empty,
            (true, true) => self.full,
        }
    }
}

impl ByFlags<bool> {
    /// The number of a set (decimal): each has its own.
    pub(crate) fn number(&self) -> usize
        ensures number { result ≡ number_of self.now }
        ensures within { result < set_count }
    {
        usize::from(self.inactive)
            + 2 * usize::from(self.inactive_full)
            + 4 * usize::from(self.empty)
            + 8 * usize::from(self.full)
    }
}
