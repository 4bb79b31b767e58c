ghost use Rattle.std.specs.Prelude.{◌≡◌, ◌++◌, ◌∷◌, [], List};
ghost use Rattle.pp_races.specs.RacesText.{is_going_on, verdict_of};
ghost use Rattle.pp_races.specs.declared.finding.Finding.{Finding};

use crate::Finding;

/// What findings come to.
#[derive(Clone, Copy)]
pub enum Verdict {
    /// There is none: the run determines the result of every order of steps.
    Same,
    /// No step races with another so far, but a processor goes on.
    NoRaceSoFar,
    /// Another order may end otherwise.
    MayDiffer,
}

impl Verdict {
    /// With one finding more.
    pub(crate) fn with(self, finding: &Finding) -> Verdict
        ensures { (all : List Finding) → self ≡ verdict_of all
            → result ≡ verdict_of (all ++ finding.now ∷ []) }
    {
        match self {
            Verdict::Same | Verdict::NoRaceSoFar if is_going_on(finding) => Verdict::NoRaceSoFar,
            Verdict::Same | Verdict::NoRaceSoFar | Verdict::MayDiffer => Verdict::MayDiffer,
        }
    }
}

fn is_going_on(finding: &Finding) -> bool
    ensures { result ≡ is_going_on finding.now }
{
    matches!(finding, Finding::GoingOn(_))
}
