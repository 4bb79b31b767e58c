ghost use Rattle.std.specs.Prelude.{◌≡◌, ◌<◌, ◌++◌, ◌∷◌, ◌^◌, [], ℕ, List, IfOk, length, slice_index};
ghost use Rattle.pp_lint.specs.FirstLines.{IsRow, IsThing, Shows, key, key_count, line_in};
ghost use Rattle.std.specs.List.{flat_map};
ghost use Rattle.pp_deck.specs.DeckText.{fields_of};
ghost use Rattle.pp_lint.specs.Given.{first_line, note_if, notes_of, notes_of_instruction, notes_within, Note};
ghost use Rattle.pp_lint.specs.LineFault.{said_after};
ghost use Rattle.pp_lint.specs.RowOfLine.{Gives};
ghost use Rattle.pp_lint.specs.declared.{line_fault.Before.Before, row.Kind.Kind};

use crate::row::{Kind, Row, place_of_start};
use crate::words::instructions_of;
use pp_channel::Memory;
use pp_instructions::{Instruction, Instructions};
use pp_numbers::{PpNo, Profile};
use pp_word::{Word6, Word12};
use std::alloc::Allocator;
use std::marker::Model;

/// The first lines that give things. Contracts see the list of their numbers, by key.
#[derive(Drop)]
pub(crate) struct FirstLines<A: Allocator> {
    /// 0 if no line gives the thing.
    lines: Vec<u32, A>,
}

/// The first key of each kind of thing; that of a fault is 0.
const NAME_KEYS: usize = 1;

const START_KEYS: usize = 21;

const WORD_KEYS: usize = 41;

const CENTRAL_KEYS: usize = 81_961;

const DEAD_KEY: usize = 213_033;

const TARGET_KEYS: usize = 213_034;

const CHANNEL_KEYS: usize = 294_954;

/// How many keys there are.
const KEYS: usize = 296_234;

/// How many places a processor's memory has.
pub(crate) const PLACES: usize = pp_word::PLACES as usize;

/// How many values the d of an instruction can have.
pub(crate) const D_VALUES: usize = 0o100;

impl<A: Allocator> Model for FirstLines<A> {
    ghost use Rattle.std.specs.Prelude.{◌≡◌, ℕ, List, length};
    ghost use Rattle.pp_lint.specs.FirstLines.{key_count};

    ghost Value = { List ℕ };

    ghost view = { λ firsts. firsts.lines.items };

    ghost invariant = { λ firsts. length firsts.lines.items ≡ key_count };
}

impl<A: Allocator> FirstLines<A> {
    /// No line gives anything.
    pub(crate) fn none(alloc: A) -> Result<Self, Memory>
        ensures { IfOk result (λ firsts. Shows firsts []) }
    {
        Ok(FirstLines {
            lines: zeros(alloc, KEYS)?,
        })
    }

    /// Notes what the line of a number gives, which comes after those that have been noted.
    pub(crate) fn note(&mut self, row: &Row, number: u32)
        requires row { IsRow row.now }
        requires number { 0 < number }
        ensures { (notes : List Note) → Shows self.old notes
            → Shows self.new (notes ++ notes_of number row.now) }
    {
        for i in 0..row.count {
            self.note_one(&row.kind, row.first + i, number);
        }
    }

    /// Notes a thing that the line of a number gives.
    fn note_one(&mut self, kind: &Kind, place: usize, number: u32)
        requires thing { IsThing kind.now place }
        requires number { 0 < number }
        ensures { (notes : List Note) → Shows self.old notes → Shows self.new
            (notes ++ record { line = number; kind = kind.now; place = place } ∷ []) }
    {
        let key = key_of(kind, place);
        if self.lines[key] == 0 {
            self.lines[key] = number;
        }
    }

    /// Notes what the START or the instructions of the line of a number give, which gives things of
    /// this kind.
    pub(crate) fn note_within(&mut self, profile: Profile, kind: &Kind, line: &[u8], number: u32)
        requires number { 0 < number }
        ensures { (notes : List Note) (before : Before) → Shows self.old notes
            → Gives before line.now kind.now → Shows self.new (notes ++ notes_within number profile
            kind.now (said_after before (fields_of line.now))) }
    {
        match kind {
            Kind::Start(n) => self.note_target(*n, Some(place_of_start(line)), number),
            Kind::Word(n) => self.note_instructions(
                profile,
                *n,
                &mut instructions_of(line),
                number,
            ),
            _ => {}
        }
    }

    /// Notes what these instructions give.
    fn note_instructions(
        &mut self,
        profile: Profile,
        n: PpNo,
        instructions: &mut Instructions,
        number: u32,
    )
        requires number { 0 < number }
        ensures { (notes : List Note) → Shows self.old notes → Shows self.new
            (notes ++ flat_map (notes_of_instruction number profile n) instructions.old) }
    {
        while let Some(i) = instructions.next_instruction() {
            self.note_instruction(profile, n, &i, number);
        }
    }

    /// Notes the place that an instruction leads to, and the channel that it is for.
    fn note_instruction(&mut self, profile: Profile, n: PpNo, i: &Instruction, number: u32)
        requires number { 0 < number }
        ensures { (notes : List Note) → Shows self.old notes
            → Shows self.new (notes ++ notes_of_instruction number profile n i.now) }
    {
        self.note_target(n, i.leads_to(profile), number);
        self.note_channel(n, i.channel_named(profile), number);
    }

    /// Notes a place that START or a jump of a processor leads to, if there is one.
    fn note_target(&mut self, n: PpNo, place: Option<Word12>, number: u32)
        requires number { 0 < number }
        ensures { (notes : List Note) → Shows self.old notes
            → Shows self.new (notes ++ note_if number (Kind.Target n) place) }
    {
        if let Some(place) = place {
            self.note_one(&Kind::Target(n), usize::from(place.get()), number);
        }
    }

    /// Notes the channel that an instruction of a processor is for, if it is for one.
    fn note_channel(&mut self, n: PpNo, c: Option<Word6>, number: u32)
        requires number { 0 < number }
        ensures { (notes : List Note) → Shows self.old notes
            → Shows self.new (notes ++ note_if number (Kind.Channel n) c) }
    {
        if let Some(c) = c {
            self.note_one(&Kind::Channel(n), usize::from(c.get()), number);
        }
    }

    /// The number of the first line that gives a thing; 0 if none does.
    pub(crate) fn line_of(&self, kind: &Kind, place: usize) -> u32
        requires { IsThing kind.now place }
        ensures { (notes : List Note) → Shows self.now notes
            → first_line notes kind.now place ≡ line_in result }
    {
        self.lines[key_of(kind, place)]
    }
}

/// `count` zeros.
fn zeros<A: Allocator>(alloc: A, count: usize) -> Result<Vec<u32, A>, Memory>
    requires { count < 2 ^ 32 }
    ensures length { IfOk result (λ entries. length entries.items ≡ count) }
    ensures zero { IfOk result (λ entries.
        (i : ℕ) → slice_index entries.items i ≡ 0) }
{
    Ok(vec![in alloc; 0; count]?)
}

/// The key of a thing.
fn key_of(kind: &Kind, place: usize) -> usize
    requires { IsThing kind.now place }
    ensures value { result ≡ key kind.now place }
    ensures within { result < key_count }
{
    match kind {
        Kind::Fault => place,
        Kind::Name(n) => NAME_KEYS + n.index() + place,
        Kind::Start(n) => START_KEYS + n.index() + place,
        Kind::Word(n) => WORD_KEYS + PLACES * n.index() + place,
        Kind::Central => CENTRAL_KEYS + place,
        Kind::Dead => DEAD_KEY + place,
        Kind::Target(n) => TARGET_KEYS + PLACES * n.index() + place,
        Kind::Channel(n) => CHANNEL_KEYS + D_VALUES * n.index() + place,
    }
}
