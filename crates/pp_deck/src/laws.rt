//! Laws of the meaning of decks. These functions do nothing: their contracts say what is proved of
//! the definitions.

ghost use Rattle.std.specs.Prelude.{ℕ, ◌≡◌, List, length, Ok};
ghost use Rattle.pp_deck.specs.DeckLaw.{KeepsDeckLaw, NamesWithin};
ghost use Rattle.pp_deck.specs.{DeckLine.Line, DeckText.lines_of};
ghost use Rattle.pp_deck.specs.DeckMeaning.{LoadedDeck, deck_meaning, parsed_deck, size_of};
ghost use Rattle.pp_deck.specs.Reading.{after_lines, progress_of};
ghost use Rattle.pp_machine.specs.Headline.{IsMachine};
ghost use Rattle.pp_numbers.specs.declared.profile.Profile.{Profile};

use pp_channel::session_law;

/// In a loaded deck each place and each central word holds the word of the last line that sets it,
/// else 0, and the last start of a processor holds. If dead start is asked for, the processors that
/// the deck does not name wait, each on the channel of its own number. Central memory has the size
/// that the first line with fields sets, else 10000 words (octal). The machine has the profile for
/// which the text was read, and no processor is named that it lacks. It is a whole one: all
/// processors and channels are there, it is known of each channel whether dead start opened it, the
/// central words are a central memory, and each channel keeps the law of sessions.
pub fn deck_law()
    ensures size { (profile : Profile) (text : List ℕ) (deck : LoadedDeck)
        → deck_meaning profile text ≡ Ok deck
        → length deck.machine.central ≡ size_of (lines_of text) }
    ensures law { (profile : Profile) (text : List ℕ) (deck : LoadedDeck)
        → deck_meaning profile text ≡ Ok deck
        → KeepsDeckLaw (parsed_deck profile (lines_of text)) deck }
    ensures names { (profile : Profile) (text : List ℕ) (deck : LoadedDeck)
        → deck_meaning profile text ≡ Ok deck → NamesWithin profile deck.named }
    ensures profile { (profile : Profile) (text : List ℕ) (deck : LoadedDeck)
        → deck_meaning profile text ≡ Ok deck → deck.machine.profile ≡ profile }
    ensures machine { (profile : Profile) (text : List ℕ) (deck : LoadedDeck)
        → deck_meaning profile text ≡ Ok deck → IsMachine deck.machine }
{
    session_law();
}

/// Lines that are read one after another leave what they load all together.
#[tactic(auto, using(crate::proofs::ProgressLemmas::after_lines_is))]
pub fn reading_law()
    ensures { (profile : Profile) (size : ℕ) (lines : List Line)
        → after_lines profile size lines ≡ progress_of profile size lines }
{}
