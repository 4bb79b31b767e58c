use pp_numbers::{PpNo, Profile};
use pp_word::Word12;

/// A line of words of processor n, in a deck for a machine of this profile: its number (decimal,
/// from 1), and the place of its first word.
#[derive(Drop)]
pub(crate) struct WordLine<'a> {
    pub(crate) profile: Profile,
    pub(crate) n: PpNo,
    pub(crate) number: u64,
    pub(crate) line: &'a [u8],
    pub(crate) first: Word12,
}
