//! What is known of an instruction whatever its processor holds. d is the lower six bits of its
//! word, m its second word.

ghost use Rattle.std.specs.Prelude.{◌≡◌, ℕ, None, Some};
ghost use Rattle.pp_processor.specs.{Effect.faults, NeedAndEffect.processor_after, Step.local};
ghost use Rattle.pp_processor.specs.Foreseen.{MayComeTo, channel_named, jump_from, jumps_at, may_go_on, sends_function, sure_fault};
ghost use Rattle.pp_processor.specs.InstructionTable.{instruction, works_on_channel};
ghost use Rattle.pp_processor.specs.Processor.{IsProcessor, Processor};
ghost use Rattle.pp_processor.specs.declared.answer.Answer.{Answer};
ghost use Rattle.pp_word.specs.declared.opcode.Opcode.{Opcode};

use crate::{EXCHANGE_JUMP, NO_CENTRAL_PROCESSOR, NO_SUCH_CHANNEL};
use pp_channel::Flags;
use pp_numbers::Profile;
use pp_word::{Opcode, Word6, Word12, next, relative};

/// Whether an operation works on channel d: codes 64 to 77 (octal).
fn works_on_channel(op: Opcode) -> bool
    ensures { result ≡ works_on_channel op }
{
    op.code() >= 0o64
}

/// The channel that an instruction works on, if its machine has it.
pub fn channel_named(profile: Profile, op: Opcode, d: Word6) -> Option<Word6>
    ensures { result ≡ channel_named profile op d }
{
    (works_on_channel(op) && profile.channel(d.get()).is_some()).then_some(d)
}

/// The fault of an instruction that faults whatever its processor holds.
pub fn sure_fault(profile: Profile, op: Opcode, d: Word6) -> Option<u8>
    ensures { result ≡ sure_fault profile op d }
{
    match op {
        Opcode::EXN => Some(EXCHANGE_JUMP),
        Opcode::RPN => Some(NO_CENTRAL_PROCESSOR),
        _ if works_on_channel(op) && profile.channel(d.get()).is_none() => Some(NO_SUCH_CHANNEL),
        _ => None,
    }
}

/// Whether the instruction behind one may be the next.
pub fn may_go_on(profile: Profile, op: Opcode, d: Word6) -> bool
    ensures { result ≡ may_go_on profile op d }
{
    !matches!(op, Opcode::LJM | Opcode::RJM | Opcode::UJN) && sure_fault(profile, op, d).is_none()
}

/// The place that an instruction at a place leads to if it jumps.
pub fn jump_from(
    profile: Profile,
    op: Opcode,
    place: Word12,
    d: Word6,
    m: Option<Word12>,
) -> Option<Word12>
    ensures { result ≡ jump_from profile op place d m }
{
    match op {
        Opcode::LJM if d.get() == 0 => m,
        Opcode::RJM if d.get() == 0 => Some(next(m?)),
        Opcode::UJN | Opcode::ZJN | Opcode::NJN | Opcode::PJN | Opcode::MJN => {
            Some(relative(place, d))
        }
        Opcode::AJM | Opcode::IJM | Opcode::FJM | Opcode::EJM => profile.channel(d.get()).and(m),
        _ => None,
    }
}

/// Whether an instruction sends a function code to equipment.
pub fn sends_function(op: Opcode) -> bool
    ensures { result ≡ sends_function op }
{
    matches!(op, Opcode::FAN | Opcode::FNC)
}

/// Whether an instruction that tests flags jumps at these.
pub fn jumps_at(op: Opcode, flags: Flags) -> bool
    ensures { result ≡ jumps_at op flags }
{
    match op {
        Opcode::AJM => flags.active,
        Opcode::IJM => !flags.active,
        Opcode::FJM => flags.full,
        _ => !flags.full,
    }
}

/// An instruction that is said to fault wherever it is run does: whatever its processor holds, the
/// fault is all that its step leads to.
#[tactic(auto, using(crate::proofs::ForeseenLemmas::surely_faults))]
pub fn sure_fault_law()
    ensures { (pp : Processor) (op : Opcode) (d fault : ℕ) → sure_fault pp.profile op d ≡ Some fault
        → instruction op pp d ≡ local (faults pp fault) }
{}

/// Outside a block a processor comes from an instruction to no other place than those that are
/// foreseen: whatever it holds and is answered, its step leaves P where it was, or behind the
/// instruction if it may go on, or where the instruction leads, or, by an index, anywhere.
#[tactic(auto, using(crate::proofs::NextPlaceLemmas::comes_to))]
pub fn next_place_law()
    ensures { (pp : Processor) (answer : Answer) → IsProcessor pp → pp.block ≡ None
        → MayComeTo pp (processor_after pp answer).p }
{}
