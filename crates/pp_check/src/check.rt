ghost use Rattle.std.specs.Prelude.{ℕ, ◌≡◌, ◌+◌, ◌<◌, ◌≤◌, ◌↔◌, IfOk, IfErr, length, take};
ghost use Rattle.pp_deck.specs.DeckText.{lines_of};
ghost use Rattle.pp_check.specs.LawfulTrace.{AreLawful, parsed_lines};
ghost use Rattle.pp_check.specs.{TraceFault.IsFault, Verdict.verdict_of};

use crate::judge::Judge;
use crate::{TraceFault, Verdict};
use pp_channel::CHANNELS;

/// Whether the events of a trace are those of lawful histories: a text in the lines that `barrel`
/// or `threads` print. `opened` are flags of the channels that were open before the first line, in
/// the order of the channels' places. Returns what is counted in a lawful trace, and otherwise the
/// first line with which the text is no lawful trace. It takes no memory.
pub fn check_trace(text: &[u8], opened: &[bool; CHANNELS]) -> Result<Verdict, TraceFault>
    ensures lawful { IfOk result (λ verdict. AreLawful opened.now (lines_of text.now)) }
    ensures counted { IfOk result (λ verdict.
        verdict ≡ verdict_of opened.now (parsed_lines (lines_of text.now))) }
    ensures fault { IfErr result (λ fault. IsFault opened.now (lines_of text.now) fault) }
    // The lines before it alone are lawful, and none that contain it.
    ensures first { IfErr result (λ fault. (k : ℕ) → k ≤ length (lines_of text.now)
        → AreLawful opened.now (take k (lines_of text.now)) ↔ (k < fault.line)) }
{
    let mut judge = Judge::new(opened);
    let mut number = 0;
    for line in text.split(|byte| *byte == b'\n') {
        number += 1;
        if let Err(flaw) = judge.read(line) {
            return Err(TraceFault { line: number, flaw });
        }
    }
    Ok(judge.verdict())
}
