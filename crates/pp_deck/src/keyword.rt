ghost use Rattle.std.specs.Prelude.{◌≡◌};
ghost use Rattle.pp_deck.specs.DeckLine.{keyword_of};

/// What the first field of a line announces.
#[derive(Clone, Copy)]
pub(crate) enum Keyword {
    /// `CENTRAL`: the size of central memory.
    Central,
    /// `CM`: central words.
    CentralWords,
    /// `PP`: the processor whose section begins.
    Processor,
    /// `START`: where that processor starts.
    Start,
    /// `DEAD`: dead start.
    DeadStart,
    /// A digit: words of that processor.
    Words,
    /// Anything else.
    Unknown,
}

impl Keyword {
    /// What this first field announces.
    #[tactic(auto, unfolding(crate::specs::DeckLine::keyword_of))]
    pub(crate) fn of(field: &[u8]) -> Keyword
        ensures { result ≡ keyword_of field.now }
    {
        if field == b"CENTRAL".as_slice() {
            Keyword::Central
        } else if field == b"CM".as_slice() {
            Keyword::CentralWords
        } else if field == b"PP".as_slice() {
            Keyword::Processor
        } else if field == b"START".as_slice() {
            Keyword::Start
        } else if field == b"DEAD".as_slice() {
            Keyword::DeadStart
        } else if matches!(field, [b'0'..=b'9', ..]) {
            Keyword::Words
        } else {
            Keyword::Unknown
        }
    }
}
