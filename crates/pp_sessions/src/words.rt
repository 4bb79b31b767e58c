ghost use Rattle.std.specs.Prelude.{◌≡◌, ◌<◌, ◌++◌, [], ◌∷◌, ℕ, List};
ghost use Rattle.pp_text.specs.TextWriter.{Prints};
ghost use Rattle.pp_sessions.specs.SessionsText.{one_word, words_from};
ghost use Rattle.pp_sessions.specs.{Stretches.words_in, TimedEvents.timed_on};

use pp_channel::{ChannelNo, Event};
use pp_machine::Trace;
use pp_text::{TextWriter, WORDS_ON_A_LINE, octal4};
use pp_word::Word12;
use std::io::Write;

/// Prints the words that are put or sent on a channel by these entries of the trace, in order,
/// eight a line.
pub(crate) fn print_words<W: Write>(text: &mut TextWriter<W>, c: ChannelNo, entries: &[Trace])
    ensures { Prints W.contents text.old text.new
        (words_from 0 (words_in (timed_on c entries.now))) }
{
    let mut count: u32 = 0;
    for entry in entries {
        count = print_entry(text, c, entry, count);
    }
    if count > 0 {
        text.print(b"\n");
    }
}

/// Prints the word of an entry, if it has one on this channel, on a line that has `count` words,
/// and gives how many it has then.
fn print_entry<W: Write>(text: &mut TextWriter<W>, c: ChannelNo, entry: &Trace, count: u32) -> u32
    requires { count < 8 }
    ensures words { (printed : List ℕ) × Prints W.contents text.old text.new printed
        × ((rest : List ℕ) → words_from count (words_in (timed_on c (entry.now ∷ [])) ++ rest)
        ≡ printed ++ words_from result rest) }
    ensures few { result < 8 }
{
    if entry.channel.get() != c.get() {
        return count;
    }
    let (Event::Put(word) | Event::Function(word)) = entry.event else {
        return count;
    };
    print_word(text, count, word);
    (count + 1) % WORDS_ON_A_LINE
}

/// Prints ` 0033`, with another space before the first word of a line, and a line feed after the
/// eighth.
fn print_word<W: Write>(text: &mut TextWriter<W>, count: u32, word: Word12)
    ensures { Prints W.contents text.old text.new (one_word count word) }
{
    text.print(if count == 0 { b"  " } else { b" " });
    text.print(&octal4(word.get()));
    if count == WORDS_ON_A_LINE - 1 {
        text.print(b"\n");
    }
}
