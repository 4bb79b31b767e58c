ghost use Rattle.std.specs.Prelude.{◌≡◌, ◌↔◌, IsTrue};
ghost use Rattle.pp_processor.specs.Processor.{IsProcessor};
ghost use Rattle.pp_ends.specs.ProgressMark.{next_in, mark_of};

use pp_machine::{Block, Pp};
use pp_word::Word12;

/// Where a processor stands: a step that moves changes some of this. So a step need not be compared
/// by the whole memory before and after it.
#[derive(Clone, Copy, PartialEq, Eq)]
pub struct ProgressMark {
    pub(crate) p: Word12,
    pub(crate) running: bool,
    /// The next place of a block in progress.
    pub(crate) block: Option<Word12>,
    /// The word before P, which a return jump to itself stores.
    pub(crate) before: Word12,
}

impl ProgressMark {
    /// Where a processor stands now.
    pub fn of(pp: &Pp) -> ProgressMark
        ensures mark { result ≡ mark_of pp.now }
        ensures widths { IsProcessor pp.now }
    {
        let p = pp.p();
        let place = Word12::truncated(u32::from(p.get()) + 0o7777);
        ProgressMark {
            p,
            running: pp.state().is_running(),
            block: next_in(&pp.block()),
            before: pp.get(place),
        }
    }

    /// Whether it is the same as another.
    pub fn is_same(&self, other: &ProgressMark) -> bool
        ensures { IsTrue result ↔ (self.now ≡ other.now) }
    {
        *self == *other
    }
}

/// The next place of a block in progress.
fn next_in(block: &Option<Block>) -> Option<Word12>
    ensures { result ≡ next_in block.now }
{
    match block {
        None => None,
        Some(block) => Some(block.place),
    }
}
