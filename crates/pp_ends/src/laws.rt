//! The laws of endings. The functions do nothing: their contracts say what is proved of the
//! definitions.

ghost use Rattle.std.specs.Prelude.{◌≡◌, ◌≢◌, ℕ, ◌+◌, ◌*◌, Bool, List, Option, length};
ghost use Rattle.pp_numbers.specs.ChannelNo.{channel_count};
ghost use Rattle.pp_machine.specs.{Headline.HoldsOnEachChannel, MachineStep.stepped, Run.run};
ghost use Rattle.pp_machine.specs.MachineState.{MachineState, processor_of};
ghost use Rattle.pp_run.specs.Determinacy.{IsQuiet, Waits};
ghost use Rattle.pp_ends.specs.declared.{ending.Ending.Ending, loops.Loop.Loop};
ghost use Rattle.pp_ends.specs.declared.ending.Ending.TheVariants.{GoingOn};
ghost use Rattle.pp_ends.specs.EndsText.{FitsItsEnding, ends_text, ends_turn};
ghost use Rattle.pp_ends.specs.Ending.{AreSameButTurns, EndsQuietFrom, EndsWith, Repeats, StandAlike, after_turns};

/// A step that leaves its processor as it was waits: it makes no event and writes no central word.
/// No list of steps whatever changes anything but the turns counted of a machine that is quiet; and
/// a run that ends quiet has left it the same from the turn on that the ending names. A run that
/// repeats stands the same after any number of its periods. No run has two endings, and the ending
/// of a run, unless it goes on, is that of every longer run.
#[tactic(auto, using(crate::proofs::MoveLemmas::kept_waits, // a step that moves nothing
crate::proofs::StillLemmas::quiet_run, // a quiet run
crate::proofs::StillLemmas::same_from))]
pub fn ends_law()
    ensures moves { (n : ℕ) (m : MachineState)
        → processor_of n (stepped n m) ≡ processor_of n m → Waits n m }
    ensures no_more { (ns : List ℕ) (m : MachineState) → IsQuiet m → AreSameButTurns m (run ns m) }
    ensures same { (t turns : ℕ) (m : MachineState) → EndsQuietFrom t turns m
        → AreSameButTurns (after_turns t m) (after_turns turns m) }
    ensures repeats { (t n k : ℕ) (m : MachineState) → length m.histories ≡ channel_count
        → HoldsOnEachChannel m → Repeats t n m
        → StandAlike (after_turns t m) (after_turns (t + k * n) m) }
    ensures one { (one other : Ending) (turns : ℕ) (m : MachineState) → EndsWith one turns m
        → EndsWith other turns m → one ≡ other }
    ensures lasts { (ending : Ending) (turns more : ℕ) (m : MachineState)
        → length m.histories ≡ channel_count → HoldsOnEachChannel m → ending ≢ GoingOn
        → EndsWith ending turns m → EndsWith ending (turns + more) m }
{}

/// The text of an ending tells the ending, its period and the turn that it names: two texts that
/// are the same, whatever they show of processors and channels, are of one ending.
#[tactic(auto, using(crate::proofs::EndingTextLemmas::text_tells_ending))]
pub fn ends_text_law()
    ensures { (shown others : List Bool) (one other : Ending) (turns more : ℕ) (m k : MachineState)
        (loops also : List (Option Loop)) → FitsItsEnding one turns → FitsItsEnding other more
        → ends_text shown one turns m loops ≡ ends_text others other more k also
        → (one ≡ other) × (ends_turn one turns ≡ ends_turn other more) }
{}
