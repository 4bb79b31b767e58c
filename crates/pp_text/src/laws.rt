//! Laws of printed texts.

ghost use Rattle.std.specs.Prelude.{◌≡◌, ◌<◌, ◌^◌, ℕ, Bool, IsTrue, List};
ghost use Rattle.pp_machine.specs.Headline.{HoldsOnEachChannel};
ghost use Rattle.pp_machine.specs.MachineState.{MachineState};
ghost use Rattle.pp_word.specs.Address.{place_count};
ghost use Rattle.pp_text.specs.InstructionRead.{second_of_text, usual_word, word_of_text};
ghost use Rattle.pp_text.specs.InstructionText.{instruction_text, is_long};
ghost use Rattle.pp_text.specs.PrintedText.{printed};
ghost use Rattle.pp_text.specs.TextLaw.{AgreeOnText, AreSameHistories, FitsItsText};

/// The text of a run determines the run: two machines with one text have the same processors named,
/// and agree on the trace, event by event, on what is shown of each processor named and on what is
/// shown of each channel. A machine that is printed fits its text, by the clause `fits` of
/// `write_text`. If the headline holds of both, each channel has the same history in both, opening
/// events and all.
pub fn text_law()
    ensures text { (named others : List Bool) (one other : MachineState)
        → FitsItsText named one → FitsItsText others other
        → printed named one ≡ printed others other → AgreeOnText named others one other }
    ensures histories { (named others : List Bool) (one other : MachineState)
        → HoldsOnEachChannel one → HoldsOnEachChannel other
        → AgreeOnText named others one other → AreSameHistories one.histories other.histories }
{}

/// The text of an instruction says which it is: read by its mnemonic and by columns, in octal, it
/// is its word (of those for a pass or a jump to its own place, the usual one), and its second.
pub fn instruction_law()
    ensures word { (place word m : ℕ) → place < place_count → word < 2 ^ 12 → m < 2 ^ 12
        → word_of_text place (instruction_text place word m) ≡ usual_word word }
    ensures second { (place word m : ℕ) → word < 2 ^ 12 → m < 2 ^ 12 → IsTrue (is_long word)
        → second_of_text (instruction_text place word m) ≡ m }
{}
