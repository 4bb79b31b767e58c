ghost use Rattle.std.specs.Prelude.{◌≡◌, ℕ, ◌||◌, ◌==◌, IsTrue};
ghost use Rattle.pp_numbers.specs.PpNo.{names_processor};
ghost use Rattle.pp_races.specs.Tables.{has_bit, unused};

use pp_machine::PpNo;

/// Who used a central word so far: a bit for each processor, by its place.
#[derive(Clone, Copy)]
pub(crate) struct WordUse {
    pub(crate) writers: u32,
    pub(crate) users: u32,
}

impl WordUse {
    /// No step used it.
    pub(crate) fn unused() -> WordUse
        ensures { result ≡ unused }
    {
        WordUse {
            writers: 0,
            users: 0,
        }
    }

    /// After a processor reads it.
    pub(crate) fn read_by(self, n: PpNo) -> WordUse
        ensures writers { result.writers ≡ self.writers }
        ensures users { (q : ℕ) → IsTrue (names_processor q)
            → has_bit result.users q ≡ (has_bit self.users q || q == n) }
    {
        WordUse {
            writers: self.writers,
            users: with_bit(self.users, n),
        }
    }

    /// After a processor writes it.
    pub(crate) fn written_by(self, n: PpNo) -> WordUse
        ensures writers { (q : ℕ) → IsTrue (names_processor q)
            → has_bit result.writers q ≡ (has_bit self.writers q || q == n) }
        ensures users { (q : ℕ) → IsTrue (names_processor q)
            → has_bit result.users q ≡ (has_bit self.users q || q == n) }
    {
        WordUse {
            writers: with_bit(self.writers, n),
            users: with_bit(self.users, n),
        }
    }
}

/// With the bit of a processor.
#[tactic(auto, using(crate::proofs::UseLemmas::bit_set))]
fn with_bit(mask: u32, n: PpNo) -> u32
    ensures { (q : ℕ) → IsTrue (names_processor q)
        → has_bit result q ≡ (has_bit mask q || q == n) }
{
    mask | 1 << n.index()
}

/// Whether the bit of a processor is set.
pub(crate) fn has_bit(mask: u32, n: PpNo) -> bool
    ensures { result ≡ has_bit mask n }
{
    mask >> n.index() & 1 == 1
}
