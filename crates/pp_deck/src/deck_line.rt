ghost use Rattle.std.specs.Prelude.{ℕ, ◌≡◌, ◌≢◌, ◌<◌, ◌≤◌, ◌^◌, ◌∷◌, [], length, Ok, Err, Result, IfOk, IfErr, OnOk};
ghost use Rattle.pp_word.specs.Address.{place_count};
ghost use Rattle.pp_machine.specs.Central.{IsCentralSize};
ghost use Rattle.pp_deck.specs.DeckLine.{Line, number_then, words_in, start, start_from, central_size, central_line};
ghost use Rattle.pp_deck.specs.DeckText.{Field, Fields};
ghost use Rattle.pp_deck.specs.{OctalNumber.number, declared.flaw.Flaw.Flaw};
ghost use Rattle.pp_deck.specs.Reading.{loaded_from, with_central_words, on_read, Leaves};

use crate::Fields;
use crate::flaw::Flaw;
use crate::octal_number::{number, word12};
use pp_machine::{Machine, Pp};
use pp_word::{MOST_CENTRAL_WORDS, Word12, Word18, Word60};
use std::alloc::Allocator;

/// Sets words from a place on to the rest of the line.
pub(crate) fn set_words(pp: &mut Pp, first: Word12, fields: &mut Fields) -> Result<(), Flaw>
    ensures { Leaves pp.new result (on_read (λ ws. loaded_from first ws pp.old)
        (words_in 4 first place_count Flaw.PastEnd fields.old)) }
{
    let mut place = first.get();
    while let Some(field) = fields.next_field() {
        let word = word12(field)?;
        let Some(at) = Word12::new(place) else {
            return Err(Flaw::PastEnd);
        };
        pp.set(at, word);
        place += 1;
    }
    Ok(())
}

/// Sets central words from an address on to the rest of the line.
pub(crate) fn set_central_words<A: Allocator>(
    machine: &mut Machine<A>,
    first: Word18,
    fields: &mut Fields,
) -> Result<(), Flaw>
    requires { length machine.old.central ≤ 2 ^ 17 }
    ensures { Leaves machine.new result (on_read (λ ws. with_central_words first ws machine.old)
        (words_in 20 first (length machine.old.central) Flaw.CentralRange fields.old)) }
{
    let mut address = first.get();
    while let Some(field) = fields.next_field() {
        let word = Word60::truncated(number(field, 20)?);
        if !machine.write_central(Word18::truncated(address), word) {
            return Err(Flaw::CentralRange);
        }
        address += 1;
    }
    Ok(())
}

/// The number in the next field, which must be there.
pub(crate) fn next_number(fields: &mut Fields, most: usize) -> Result<u64, Flaw>
    requires { most ≤ 20 }
    ensures ok { IfOk result (λ n. (field : Field)
        × ((fields.old ≡ field ∷ fields.new) × (number most field ≡ Ok n))) }
    ensures flaw { IfErr result (λ flaw. (next : ℕ → Fields → Result Line Flaw)
        → number_then most fields.old next ≡ Err flaw) }
    ensures small { IfOk result (λ n. n < 8 ^ most) }
{
    number(fields.next_field().ok_or(Flaw::UnknownLine)?, most)
}

/// Checks that the line ends here.
pub(crate) fn end_line(fields: &mut Fields) -> Result<(), Flaw>
    ensures ended { OnOk result (fields.old ≡ []) }
    ensures flaw { IfErr result (λ flaw. (flaw ≡ Flaw.UnknownLine) × (fields.old ≢ [])) }
{
    match fields.next_field() {
        Some(_) => Err(Flaw::UnknownLine),
        None => Ok(()),
    }
}

/// The A of a `START` line, after its P; 0 if it gives none.
pub(crate) fn start_a(fields: &mut Fields) -> Result<Word18, Flaw>
    ensures { (p : ℕ) → start_from p fields.old ≡ on_read (start p) result }
{
    let Some(field) = fields.next_field() else {
        return Ok(Word18::ZERO);
    };
    let a = Word18::truncated(number(field, 6)? as u32);
    end_line(fields).and(Ok(a))
}

/// The size of central memory that a `CENTRAL` line sets, after its keyword.
#[tactic(auto, unfolding(crate::specs::DeckLine::central_line))]
pub(crate) fn central_size_in(fields: &mut Fields) -> Result<u32, Flaw>
    ensures line { central_line fields.old ≡ on_read central_size result }
    ensures range { IfOk result IsCentralSize }
{
    let size = next_number(fields, 6)? as u32;
    if !(1..=MOST_CENTRAL_WORDS).contains(&size) {
        return Err(Flaw::CentralRange);
    }
    end_line(fields).and(Ok(size))
}
