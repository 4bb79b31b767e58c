//! Laws of traces. These functions do nothing: their contracts say what is proved of the
//! definitions.

ghost use Rattle.std.specs.Prelude.{ℕ, ◌≡◌, ◌<◌, ◌≤◌, ◌↔◌, Bool, List, length, take};
ghost use Rattle.std.specs.List.Sorted.{IsStrictlyIncreasing};
ghost use Rattle.pp_channel.specs.Law.{KeepsLaw};
ghost use Rattle.pp_deck.specs.DeckText.{Fields};
ghost use Rattle.pp_check.specs.LawfulTrace.{AreLawful, IsLawfulTrace, history, turns};
ghost use Rattle.pp_check.specs.TraceFault.{IsFault};
ghost use Rattle.pp_check.specs.declared.{trace_fault.TraceFault.TraceFault, trace_line.TraceLine.TraceLine};

use pp_channel::session_law;

/// The fault of a text is at the first line with which it is no lawful trace: the lines before it
/// are lawful, and so are all prefixes of these, and no lines that contain it are. A text has at
/// most one fault, flaw and all, and a lawful text has none.
pub fn fault_law()
    ensures first { (opened : List Bool) (text : List Fields) (fault : TraceFault)
        → IsFault opened text fault → (k : ℕ) → k ≤ length text
        → AreLawful opened (take k text) ↔ (k < fault.line) }
    ensures one { (opened : List Bool) (text : List Fields) (fault other : TraceFault)
        → IsFault opened text fault → IsFault opened text other → fault ≡ other }
    ensures none { (opened : List Bool) (text : List Fields) (fault : TraceFault)
        → IsFault opened text fault → ¬ AreLawful opened text }
{}

/// In a lawful trace turns rise from line to line, and on every channel the law of sessions holds:
/// in every session the words taken are the first of the words put, all but at most one.
pub fn trace_law()
    ensures turns { (opened : List Bool) (lines : List TraceLine) → IsLawfulTrace opened lines
        → IsStrictlyIncreasing (turns lines) }
    ensures sessions { (opened : List Bool) (lines : List TraceLine) → IsLawfulTrace opened lines
        → (c : ℕ) → KeepsLaw (history opened lines c) }
{
    session_law();
}
