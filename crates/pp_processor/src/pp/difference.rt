ghost use Rattle.std.specs.Prelude.{◌≡◌, ◌≢◌, ◌↔◌, IsNone, IsSome, IsTrue};

use crate::{Block, BlockKind, Pp};
use pp_word::Word12;

impl Pp {
    /// The first place at which the memories of two processors differ; 0000 if anything else does.
    pub fn first_difference(&self, other: &Pp) -> Option<Word12>
        ensures same { IsNone result → self.now ≡ other.now }
        ensures differ { IsSome result → self.now ≢ other.now }
    {
        if self.p != other.p
            || self.a != other.a
            || self.profile != other.profile
            || self.state != other.state
            || !is_same_block(&self.block, &other.block)
        {
            return Some(Word12::ZERO);
        }
        self.memory.first_difference(&other.memory)
    }
}

fn is_same_block(one: &Option<Block>, other: &Option<Block>) -> bool
    ensures { IsTrue result ↔ (one.now ≡ other.now) }
{
    match (one, other) {
        (None, None) => true,
        (Some(block), Some(next)) => {
            block.place == next.place && is_same_kind(&block.kind, &next.kind)
        }
        (None, Some(_)) | (Some(_), None) => false,
    }
}

fn is_same_kind(one: &BlockKind, other: &BlockKind) -> bool
    ensures { IsTrue result ↔ (one.now ≡ other.now) }
{
    match (one, other) {
        (BlockKind::CentralIn { left }, BlockKind::CentralIn { left: next })
        | (BlockKind::CentralOut { left }, BlockKind::CentralOut { left: next }) => left == next,
        (BlockKind::Input { channel }, BlockKind::Input { channel: next })
        | (BlockKind::Output { channel }, BlockKind::Output { channel: next }) => {
            channel.get() == next.get()
        }
        _ => false,
    }
}
