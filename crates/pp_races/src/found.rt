//! What an operation would have done, had it found its channel otherwise.

ghost use Rattle.std.specs.Prelude.{◌≡◌};
ghost use Rattle.pp_processor.specs.Positions.{AsksChannel};
ghost use Rattle.pp_races.specs.OtherFlags.{found_at, is_alike, is_race, makes_none, waits_at};

use pp_channel::{ChanOp, Flags, event_by};
use pp_processor::{Position, Pp};
use pp_word::Word12;

/// What an operation that made no event would have done at other flags.
#[derive(Clone, Copy)]
pub(crate) enum Found {
    /// The same.
    Alike,
    /// Its processor would have waited.
    Waits,
    /// It would have made an event, or its processor would have gone on otherwise.
    Races,
}

impl Found {
    pub(crate) fn is_alike(self) -> bool
        ensures { result ≡ is_alike self }
    {
        matches!(self, Found::Alike)
    }

    pub(crate) fn is_race(self) -> bool
        ensures { result ≡ is_race self }
    {
        matches!(self, Found::Races)
    }
}

/// What an operation that found the flags `now`, and made no event, would have done at these.
pub(crate) fn found_at(pp: &Pp, op: &ChanOp, now: Flags, flags: Flags) -> Found
    requires { AsksChannel pp.now op.now }
    ensures { result ≡ found_at op.now pp.now now flags }
{
    if !makes_none(op, flags) {
        return Found::Races;
    }
    let there = Position::at(pp, op, flags);
    if there.is_same(&Position::at(pp, op, now)) {
        Found::Alike
    } else if there.is_same(&Position::of(pp)) {
        Found::Waits
    } else {
        Found::Races
    }
}

/// Whether an operation makes no event on a channel with these flags, whatever its register.
fn makes_none(op: &ChanOp, flags: Flags) -> bool
    ensures { result ≡ makes_none op.now flags }
{
    event_by(op, flags, Some(Word12::ZERO)).is_none()
}

/// Whether a processor waits if its channel has these flags.
pub(crate) fn waits_at(pp: &Pp, op: &ChanOp, flags: Flags) -> bool
    requires { AsksChannel pp.now op.now }
    ensures { result ≡ waits_at op.now pp.now flags }
{
    makes_none(op, flags) && Position::at(pp, op, flags).is_same(&Position::of(pp))
}
