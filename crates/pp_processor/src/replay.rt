ghost use Rattle.std.specs.Prelude.{◌≡◌};
ghost use Rattle.pp_processor.specs.BlockResults.{CompleteInput, ShortInput, CompleteOutput, ShortOutput, CentralRead, CentralWrite};
ghost use Rattle.pp_processor.specs.Replay.{fits, reply_fits, replayed, given_count};
ghost use Rattle.pp_processor.specs.Processor.{IsAtRest};

use crate::{Answer, Need, Pp};
use pp_channel::{ChanOp, Reply};

fn reply_fits(operation: &ChanOp, reply: &Reply) -> bool
    ensures { result ≡ reply_fits operation.now reply.now }
{
    match reply {
        Reply::Flags(_) => operation.only_looks(),
        Reply::Held(_) => !operation.only_looks(),
        Reply::Done => !matches!(operation, ChanOp::Probe | ChanOp::Take),
        Reply::Word(_) => matches!(operation, ChanOp::Take),
    }
}

/// Whether an answer fits a need: Nothing and Local go with Local, an operation on a channel with
/// its replies, Read with Read, Write with Wrote.
pub fn fits(need: &Need, answer: &Answer) -> bool
    ensures { result ≡ fits need.now answer.now }
{
    match need {
        Need::Nothing | Need::Local => matches!(answer, Answer::Local),
        Need::Channel(_, operation) => match answer {
            Answer::Channel(reply) => reply_fits(operation, reply),
            Answer::Local | Answer::Read(_) | Answer::Wrote(_) => false,
        },
        Need::Read(_) => matches!(answer, Answer::Read(_)),
        Need::Write(_, _) => matches!(answer, Answer::Wrote(_)),
    }
}

fn block_results(pp: &Pp)
    ensures complete_input { CompleteInput pp.now }
    ensures short_input { ShortInput pp.now }
    ensures complete_output { CompleteOutput pp.now }
    ensures short_output { ShortOutput pp.now }
    ensures central_read { CentralRead pp.now }
    ensures central_write { CentralWrite pp.now }
{
    pp.has_widths();
}

impl Pp {
    /// Gives the answers in order, up to the first that does not fit; returns how many were given.
    #[tactic(auto, using(crate::proofs::ReplayLemmas::replays))]
    pub fn replay(&mut self, answers: &[Answer]) -> usize
        ensures after { self.new ≡ replayed self.old answers.now }
        ensures count { result ≡ given_count self.old answers.now }
        ensures rest_changes_nothing { IsAtRest self.old → self.new ≡ self.old }

        // What a whole block transfer leaves, without its single steps.
        ensures complete_input { CompleteInput self.old }
        ensures short_input { ShortInput self.old }
        ensures complete_output { CompleteOutput self.old }
        ensures short_output { ShortOutput self.old }
        ensures central_read { CentralRead self.old }
        ensures central_write { CentralWrite self.old }
    {
        block_results(self);
        for (i, answer) in answers.iter().enumerate() {
            if !fits(&self.wants(), answer) {
                return i;
            }
            let _ = self.give(*answer);
        }
        answers.len()
    }
}
