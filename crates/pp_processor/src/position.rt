ghost use Rattle.std.specs.Prelude.{◌≡◌};
ghost use Rattle.pp_channel.specs.declared.chan_op.ChanOp.{ChanOp};
ghost use Rattle.pp_processor.specs.Positions.{AsksChannel, branch_position, cut_position, held_position, is_same, position_at, position_of, position_shown};

use crate::{Block, BlockKind, Pp, jumps_at};
use pp_channel::{ChanOp, Flags};
use pp_word::{Word12, decode, next};

/// Where a processor is: its P, and whether it is in a block.
#[derive(Clone, Copy)]
pub struct Position {
    pub p: Word12,
    pub in_block: bool,
}

impl Position {
    /// That of a processor now.
    pub fn of(pp: &Pp) -> Position
        ensures { result ≡ position_of pp.now }
    {
        Position {
            p: pp.p(),
            in_block: pp.block().is_some(),
        }
    }

    /// That of a processor after its operation on a channel with these flags, if it makes no event.
    /// The processor itself is not copied.
    #[tactic(auto, using(crate::proofs::PositionLemmas::shown_position))]
    pub fn at(pp: &Pp, op: &ChanOp, flags: Flags) -> Position
        requires { AsksChannel pp.now op.now }
        ensures { result ≡ position_at op.now pp.now flags }
    {
        shown(pp, op, flags)
    }

    /// Whether it is the same as another.
    pub fn is_same(&self, other: &Position) -> bool
        ensures { result ≡ is_same self.now other.now }
    {
        self.p.get() == other.p.get() && self.in_block == other.in_block
    }
}

/// Where a processor is after an operation that found these flags, and made no event.
fn shown(pp: &Pp, op: &ChanOp, flags: Flags) -> Position
    ensures { result ≡ position_shown op.now pp.now flags }
{
    match op {
        ChanOp::Probe => branch(pp, flags),
        _ => held(pp, flags),
    }
}

/// After an instruction that tests flags.
fn branch(pp: &Pp, flags: Flags) -> Position
    ensures { result ≡ branch_position pp.now flags }
{
    let (operation, _) = decode(pp.get(pp.p()));
    let after = next(pp.p());
    Position {
        p: if jumps_at(operation, flags) {
            pp.get(after)
        } else {
            next(after)
        },
        in_block: pp.block().is_some(),
    }
}

/// After an operation that is held: a block ends if its channel is inactive.
fn held(pp: &Pp, flags: Flags) -> Position
    ensures { result ≡ held_position pp.now.block pp.now flags }
{
    match pp.block() {
        Some(block) if !flags.active => cut(pp, block),
        _ => Position::of(pp),
    }
}

/// After a block that its channel ends.
fn cut(pp: &Pp, block: Block) -> Position
    ensures { result ≡ cut_position block.kind block.place pp.now }
{
    let last = match block.kind {
        BlockKind::Input { .. } if block.place.get() == 0 => Word12::ZERO,
        BlockKind::Input { .. } | BlockKind::Output { .. } => pp.get(Word12::ZERO),
        BlockKind::CentralIn { .. } | BlockKind::CentralOut { .. } => return Position::of(pp),
    };
    let p = next(last);
    Position { p, in_block: false }
}
