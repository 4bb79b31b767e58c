//! The law of a circle.

ghost use Rattle.std.specs.Prelude.{List, ◌++◌};
ghost use Rattle.pp_numbers.specs.Subsequence.{IsSubsequence};
ghost use Rattle.pp_channel.specs.History.{AreHistories};
ghost use Rattle.pp_line.specs.LineLog.{IsMonotone};
ghost use Rattle.pp_line.specs.Merge.{Merges, no_opening};
ghost use Rattle.pp_line.specs.Order.{IsTotalOrderOf};
ghost use Rattle.pp_report.specs.Types.{Entry};
ghost use Rattle.pp_laws.specs.Circle.{histories_of_circle, one_log, other_log};

/// What one order over all channels excludes: a circle. One processor takes a word from channel 1
/// and then puts one on channel 2; another takes that, and then puts the word that the first took.
/// Each channel's history is lawful, no number falls along either log, and the two logs merge to
/// the histories, so all that is said of one channel at a time holds. Yet there is no order in
/// which both logs stand.
pub fn circle_law()
    ensures lawful { AreHistories histories_of_circle }
    ensures monotone { IsMonotone one_log × IsMonotone other_log }
    ensures merged { Merges no_opening histories_of_circle (one_log ++ other_log) }
    ensures no_order { (order : List Entry) → IsTotalOrderOf no_opening histories_of_circle order
        → IsSubsequence one_log order → IsSubsequence other_log order → ⊥ }
{}
