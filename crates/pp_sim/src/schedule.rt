use pp_condition::Until;
use pp_machine::PpNo;

/// Whose steps come first in a run, and until when it goes on, if not for all its turns.
#[derive(Clone, Copy)]
pub struct Schedule<'a> {
    pub first: &'a [PpNo],
    pub until: Option<Until>,
}
