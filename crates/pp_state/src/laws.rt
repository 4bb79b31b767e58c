//! The laws of how things stand and of the words shown. These functions do nothing: their contracts
//! say what is proved of the definitions.

ghost use Rattle.std.specs.Prelude.{◌≡◌, ◌≢◌, ◌<◌, ◌≤◌, ◌↔◌, ℕ, [], All, Bool, List, length, slice_index};
ghost use Rattle.std.specs.List.{flat_map};
ghost use Rattle.pp_numbers.specs.{ChannelNo.channel_count, declared.bounds.Bounds.Bounds};
ghost use Rattle.pp_machine.specs.{Headline.HoldsOnEachChannel, MachineStep.step_outcome};
ghost use Rattle.pp_machine.specs.MachineState.{MachineState, processor_of};
ghost use Rattle.pp_processor.specs.{NeedAndEffect.need, declared.outcome.Outcome.TheVariants.Held};
ghost use Rattle.pp_state.specs.Changes.{changed_central, changed_section};
ghost use Rattle.pp_run.specs.declared.step_counts.StepCounts.{StepCounts};
ghost use Rattle.pp_state.specs.ShownStanding.{AgreeOnState, FitsItsState};
ghost use Rattle.pp_state.specs.StateLaw.{AreMemories, IsNew, IsHeld, overwritten, words_set};
ghost use Rattle.pp_state.specs.StateText.{state_text};
ghost use Rattle.pp_text.specs.Standing.{held_text};
ghost use Rattle.pp_word.specs.Address.{place_count};
ghost use Rattle.pp_machine.specs.Central.{IsCentral};
ghost use Rattle.pp_processor.specs.PpMemory.{IsMemory};
ghost use Rattle.pp_processor.specs.Processor.{Processor, word_at};
ghost use Rattle.pp_state.specs.{CentralText.central_text, MemoryText.memory_text};
ghost use Rattle.pp_state.specs.MemoryReading.{central_word_read, word_read};

/// What the text of a machine says: it says ` HELD ` of a processor exactly where its next step
/// needs an operation for which its channel is not ready, which is where that step is held; the
/// load overwritten by the words on the lines is the memory after the run, and no word on them
/// stands at its place already; and the same of central memory.
pub fn state_law()
    ensures waits { (n : ℕ) (m : MachineState) → length m.histories ≡ channel_count
        → HoldsOnEachChannel m → (step_outcome n m ≡ Held) ↔ IsHeld n m }
    ensures held { (n : ℕ) (m : MachineState) (count : ℕ) → length m.histories ≡ channel_count
        → HoldsOnEachChannel m
        → (held_text (need (processor_of n m)) (step_outcome n m) m count ≢ []) ↔ IsHeld n m }
    ensures memory { (n : ℕ) (before after : MachineState) → AreMemories n before after
        → overwritten (processor_of n before).memory
        (flat_map words_set (changed_section before after n))
        ≡ (processor_of n after).memory }
    ensures new_words { (n : ℕ) (before after : MachineState) → AreMemories n before after
        → All (IsNew (processor_of n before).memory)
        (flat_map words_set (changed_section before after n)) }
    ensures central { (before after : List ℕ) → length before ≡ length after
        → overwritten before (flat_map words_set (changed_central before after)) ≡ after }
    ensures new_central { (before after : List ℕ)
        → All (IsNew before) (flat_map words_set (changed_central before after)) }
{}

/// The text of how things stand tells what it shows: two texts that are the same show the same
/// processors, each with P, A, its state, its instruction, the place of its block and what holds
/// it; the same words changed, at the same places; and the same of each channel.
pub fn state_text_law()
    ensures { (shown others : List Bool) (before after load other : MachineState)
        (counts more : List StepCounts) → FitsItsState shown before after counts
        → FitsItsState others load other more
        → state_text shown before after counts ≡ state_text others load other more
        → AgreeOnState shown others before after load other counts more }
{}

/// The text of a memory is the memory: the word at each place within the bounds is read off its
/// columns.
#[tactic(auto, using(crate::proofs::MemoryLawLemmas::word_is_read))]
pub fn memory_law()
    ensures { (bounds : Bounds) (pp : Processor) (place : ℕ) → IsMemory pp.memory
        → place < place_count → bounds.first ≤ place → place ≤ bounds.last
        → word_read place (memory_text bounds pp) ≡ word_at pp place }
{}

/// The text of central memory is central memory: the word at each address within the bounds is read
/// off its columns.
#[tactic(auto, using(crate::proofs::MemoryLawLemmas::central_word_is_read))]
pub fn central_law()
    ensures { (bounds : Bounds) (central : List ℕ) (a : ℕ) → IsCentral central
        → a < length central → bounds.first ≤ a → a ≤ bounds.last
        → central_word_read a (central_text bounds central) ≡ slice_index central a }
{}
