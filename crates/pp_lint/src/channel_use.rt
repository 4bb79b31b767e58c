//! Channels that one processor alone uses.

ghost use Rattle.std.specs.Prelude.{ℕ, ◌≡◌, ◌+◌, ◌++◌, ◌∷◌, [], IfOk, List, option_to_list};
ghost use Rattle.std.specs.List.{flat_map, list_any};
ghost use Rattle.pp_lint.specs.ChannelUse.{alone_finding, alone_use, alone_uses, is_alone, is_first, is_for, is_listed, is_listed_for, use_of_one, user};
ghost use Rattle.pp_lint.specs.FirstLines.{Shows};
ghost use Rattle.pp_lint.specs.Given.{Note};
ghost use Rattle.pp_lint.specs.LintText.{finding_line, is_something_found};
ghost use Rattle.pp_lint.specs.SeenChannels.{ShowsChannels};
ghost use Rattle.pp_instructions.specs.declared.instruction.Instruction.{Instruction};
ghost use Rattle.pp_text.specs.TextWriter.{Prints};

use crate::first_lines::{D_VALUES, FirstLines};
use crate::line_findings::print_place;
use crate::row::Kind;
use crate::straight_line::field_of;
use crate::whole_deck::WholeDeck;
use crate::word_line::WordLine;
use pp_channel::{CHANNELS, ChannelNo, Memory};
use pp_deck::Deck;
use pp_instructions::{Columns, Instruction};
use pp_listing::ListedInstructions;
use pp_machine::Pp;
use pp_numbers::{PROCESSORS, PpNo, Profile};
use pp_text::{TextWriter, octal2, print_short_octal};
use pp_word::{PLACES, Word6, Word12};
use std::alloc::Allocator;
use std::io::Write;

/// Channel c, which processor n alone uses.
#[derive(Clone, Copy)]
pub(crate) struct ChannelUse {
    pub(crate) n: PpNo,
    pub(crate) c: ChannelNo,
}

/// The channels that one processor alone uses, in order.
pub(crate) fn alone_uses<A: Allocator>(
    alloc: A,
    deck: &Deck<A>,
) -> Result<Vec<ChannelUse, A>, Memory>
    ensures { IfOk result (λ uses. uses.items ≡ alone_uses
        (record { machine = deck.now.machine; named = deck.now.named })) }
{
    let mut uses = Vec::new(alloc);
    for place in 0..CHANNELS {
        if let Some(alone) = alone_use(deck, ChannelNo::at(place)) {
            uses.push(alone)?;
        }
    }
    Ok(uses)
}

/// A channel, if one processor alone has words for it, a listing shows one as an instruction, and
/// no dead start opens the channel.
fn alone_use<A: Allocator>(deck: &Deck<A>, c: ChannelNo) -> Option<ChannelUse>
    ensures { result ≡ alone_use
        (record { machine = deck.now.machine; named = deck.now.named }) c }
{
    let is_opened = deck.machine.opened(c);
    if is_opened {
        return None;
    }
    let mut found = None;
    for place in 0..PROCESSORS {
        if let Some(n) = user(deck, c, PpNo::at(place)) {
            if found.is_some() {
                return None;
            }
            found = Some(n);
        }
    }
    use_of(deck, c, found)
}

/// A channel, if a listing shows an instruction for it of the processor that is found.
fn use_of<A: Allocator>(deck: &Deck<A>, c: ChannelNo, found: Option<PpNo>) -> Option<ChannelUse>
    ensures { result ≡ use_of_one (record { machine = deck.now.machine; named = deck.now.named }) c
        (option_to_list found) }
{
    let n = found?;
    if !is_listed(deck, c, n) {
        return None;
    }
    Some(ChannelUse { n, c })
}

/// Whether a listing of the deck shows an instruction of a processor for a channel.
#[tactic(auto, unfolding(crate::specs::ChannelUse::is_listed))]
fn is_listed<A: Allocator>(deck: &Deck<A>, c: ChannelNo, n: PpNo) -> bool
    ensures { result ≡ is_listed
        (record { machine = deck.now.machine; named = deck.now.named }) c n }
{
    has_instruction_for(
        deck.machine.profile(),
        c,
        &mut ListedInstructions::of(deck.machine.pp(n)),
    )
}

/// A processor, if the deck names it and it has a word that would be an instruction for a channel.
#[tactic(auto, unfolding(crate::specs::ChannelUse::user))]
fn user<A: Allocator>(deck: &Deck<A>, c: ChannelNo, n: PpNo) -> Option<PpNo>
    ensures { result ≡ user (record { machine = deck.now.machine; named = deck.now.named }) c n }
{
    if deck.named[n.index()] && has_word_for(deck.machine.profile(), c, deck.machine.pp(n)) {
        Some(n)
    } else {
        None
    }
}

/// Whether a processor has a word that would be an instruction for a channel.
fn has_word_for(profile: Profile, c: ChannelNo, pp: &Pp) -> bool
    ensures { result ≡ list_any (is_for profile c) pp.now.memory }
{
    for place in 0..PLACES {
        if is_for(profile, c, pp.get(Word12::truncated(place))) {
            return true;
        }
    }
    false
}

/// Whether one of these instructions is for a channel.
fn has_instruction_for(
    profile: Profile,
    c: ChannelNo,
    instructions: &mut ListedInstructions,
) -> bool
    ensures { result ≡ list_any (is_listed_for profile c) instructions.old }
{
    while let Some(i) = instructions.next_instruction() {
        if is_for(profile, c, i.word) {
            return true;
        }
    }
    false
}

/// Whether a word is an instruction for a channel.
fn is_for(profile: Profile, c: ChannelNo, word: Word12) -> bool
    ensures { result ≡ is_for profile c word }
{
    let i = Instruction {
        place: Word12::ZERO,
        word,
        second: None,
    };
    match i.channel_named(profile) {
        Some(named) => named.get() == c.get(),
        None => false,
    }
}

/// Prints `channel 05 is used by PP 0 alone`, if that is so, and this instruction of a line is its
/// first for the channel, and sends no function code; and returns whether it is.
#[tactic(auto, using(pp_numbers::proofs::PpNoLemmas::processor_fits))]
pub(crate) fn print_alone_finding<A: Allocator, W: Write>(
    text: &mut TextWriter<W>,
    deck: &WholeDeck<A>,
    words: &WordLine,
    columns: &mut Columns,
    seen: &[bool; D_VALUES],
    i: &Instruction,
) -> bool
    ensures same { columns.new ≡ columns.old }
    ensures prints { (k : ℕ) (notes : List Note) (before : List Instruction)
        → Shows deck.now.firsts notes → ShowsChannels words.now.profile seen.now before
        → words.now.number ≡ k + 1 → Prints W.contents text.old text.new (flat_map finding_line
        (alone_finding words.now.profile k columns.old notes deck.now.alone.items words.now.n
        words.now.first before i.now)) }
    ensures found { (k : ℕ) (notes : List Note) (before : List Instruction)
        → Shows deck.now.firsts notes → ShowsChannels words.now.profile seen.now before
        → words.now.number ≡ k + 1 → result ≡ is_something_found
        (alone_finding words.now.profile k columns.old notes deck.now.alone.items words.now.n
        words.now.first before i.now) }
{
    let Some(c) = i.channel_named(words.profile) else {
        return false;
    };
    let is_first = is_first(&deck.firsts, words.n, words.number, seen, c);
    if !(is_first & is_alone(&deck.alone, words.n, c) & !i.sends_function()) {
        return false;
    }
    print_place(
        text,
        words.number,
        columns.column_of(field_of(words.first, i)),
    );
    text.print(b"channel ");
    text.print(&octal2(c.get()));
    text.print(b" is used by PP ");
    print_short_octal(text, 2, u64::from(words.n.get()));
    text.print(b" alone\n");
    true
}

/// Whether a processor alone uses a channel.
fn is_alone(uses: &[ChannelUse], n: PpNo, c: Word6) -> bool
    ensures { result ≡ is_alone uses.now n c }
{
    for one in uses {
        if one.n.get() == n.get() && one.c.get() == c.get() {
            return true;
        }
    }
    false
}

/// Whether an instruction of processor n for a channel, in the line of a number, is its first in
/// the deck; those before it in the line are for the channels seen.
fn is_first<A: Allocator>(
    firsts: &FirstLines<A>,
    n: PpNo,
    number: u64,
    seen: &[bool; D_VALUES],
    c: Word6,
) -> bool
    ensures { (profile : Profile) (k : ℕ) (notes : List Note) (before : List Instruction)
        → Shows firsts.now notes → ShowsChannels profile seen.now before → number ≡ k + 1
        → result ≡ is_first profile k notes n before c }
{
    let line = firsts.line_of(&Kind::Channel(n), usize::from(c.get()));
    u64::from(line) == number && !seen[usize::from(c.get())]
}

/// Marks the channel of an instruction as seen.
#[tactic(auto, using(crate::proofs::ChannelUseLemmas::one_seen, // or it is for none
crate::proofs::ChannelUseLemmas::nothing_seen))]
pub(crate) fn see(seen: &mut [bool; D_VALUES], profile: Profile, i: &Instruction)
    ensures { (before : List Instruction) → ShowsChannels profile seen.old before
        → ShowsChannels profile seen.new (before ++ i.now ∷ []) }
{
    if let Some(c) = i.channel_named(profile) {
        seen[usize::from(c.get())] = true;
    }
}
