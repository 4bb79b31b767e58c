//! Laws of the texts of reports.

ghost use Rattle.std.specs.Prelude.{ℕ, ◌≡◌, ◌<◌, ◌↔◌, All, Bool, List, length, None};
ghost use Rattle.pp_channel.specs.History.{IsLawful, history_on};
ghost use Rattle.pp_report.specs.Types.{Event, Report, Worker};
ghost use Rattle.pp_line.specs.Merge.{Merges};
ghost use Rattle.pp_machine.specs.Headline.{opening_history};
ghost use Rattle.pp_machine.specs.MachineState.{MachineState};
ghost use Rattle.pp_runner.specs.End.{HasEndNumber};
ghost use Rattle.pp_runner.specs.WorkerReport.{logs_of};
ghost use Rattle.pp_report.specs.PrintedReport.{author_place, printed_report};
ghost use Rattle.pp_report.specs.ReportLaw.{AgreeOnReport, FitsItsReport, printed_on};
ghost use Rattle.pp_text.specs.TextLaw.{ShowSameChannel};

use std::alloc::Allocator;

/// Only opening events have no author, and so no line: if the logs of workers merge to histories,
/// each event that is not one of the opening history stands in the log of one of them.
pub fn author_law<A: Allocator>()
    ensures { (opening : ℕ → List Event) (histories : List (List Event)) (workers : List (Worker A))
        → Merges opening histories (logs_of workers)
        → (c number : ℕ) → number < length (history_on c histories)
        → (author_place c workers number ≡ None) ↔ (number < length (opening c)) }
{}

/// The text of a run by threads determines its report: two reports with one text, which both fit
/// and in which each fault is a numbered one, agree on the events of each channel that have an
/// author, each with its number and its author, on which processors are shown and on P, A and the
/// end of each, and on what is shown of each channel. If the logs of both merge over the same
/// opening histories, the histories are the same too; and so they are if the logs merge to lawful
/// histories, each over what dead start left of its own machine.
pub fn report_law<A: Allocator>()
    ensures text { (named others : List Bool) (one other : Report A)
        → FitsItsReport named one → FitsItsReport others other
        → All (λ worker. HasEndNumber worker.finish) one.ends.items
        → All (λ worker. HasEndNumber worker.finish) other.ends.items
        → printed_report named one ≡ printed_report others other
        → AgreeOnReport named others one other }
    ensures histories { (opening : ℕ → List Event) (one other : Report A) (c : ℕ)
        → Merges opening one.channels (logs_of one.ends.items)
        → Merges opening other.channels (logs_of other.ends.items)
        → printed_on c one ≡ printed_on c other
        → history_on c one.channels ≡ history_on c other.channels }
    ensures dead_start { (machine another : MachineState) (one other : Report A) (c : ℕ)
        → Merges (λ d. opening_history d machine) one.channels (logs_of one.ends.items)
        → Merges (λ d. opening_history d another) other.channels (logs_of other.ends.items)
        → All IsLawful one.channels → All IsLawful other.channels
        → printed_on c one ≡ printed_on c other
        → ShowSameChannel (history_on c one.channels) (history_on c other.channels)
        → history_on c one.channels ≡ history_on c other.channels }
{}
