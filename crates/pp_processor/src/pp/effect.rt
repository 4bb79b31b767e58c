ghost use Rattle.std.specs.Prelude.{◌≡◌, None};
ghost use Rattle.pp_word.specs.Bits.{logical_difference, logical_product};
ghost use Rattle.pp_word.specs.OnesComplement.{sum, difference};
ghost use Rattle.pp_processor.specs.Processor.{IsFaultNumber};
ghost use Rattle.pp_processor.specs.Effect.{goes_on, faults, jumps_or_stops, jumps_where, branches_where, calls, is_negative, leads_to_itself, loads, stores_word, replaces, replaces_by_sum, replaces_by_one_more, replaces_by_one_less};

use crate::{Pp, PpState};
use pp_word::{Word6, Word12, Word18, add18, and18, next, relative, sub18, xor18};

/// The uppermost bit of A: 1 in a negative number.
const SIGN: u32 = 0o400_000;

pub(super) fn leads_to_itself(d: Word6) -> bool
    ensures { result ≡ leads_to_itself d }
{
    let by = d.get();
    by == 0 || by == 0o77
}

impl Pp {
    /// P moves past an instruction of `words` words.
    pub(super) fn go_on(&mut self, words: u8)
        ensures { self.new ≡ goes_on self.old words }
    {
        self.p = self.place_after_p(words);
    }

    pub(super) fn fault(&mut self, number: u8)
        requires { IsFaultNumber number }
        ensures { self.new ≡ faults self.old number }
    {
        self.state = PpState::Fault(number);
        self.block = None;
    }

    /// UJN.
    pub(super) fn jump_or_stop(&mut self, d: Word6)
        requires { self.old.block ≡ None }
        ensures { self.new ≡ jumps_or_stops self.old d }
    {
        if leads_to_itself(d) {
            self.state = PpState::Stopped;
        } else {
            self.p = relative(self.p, d);
        }
    }

    /// A relative jump if a test holds.
    #[inline(always)]
    pub(super) fn jump_where(&mut self, test: bool, d: Word6)
        ensures { self.new ≡ jumps_where test self.old d 1 }
    {
        if !test {
            self.go_on(1);
        } else if !leads_to_itself(d) {
            self.p = relative(self.p, d);
        }
    }

    /// A long jump to the second word if a test holds.
    pub(super) fn branch_where(&mut self, test: bool)
        ensures { self.new ≡ branches_where test self.old 2 }
    {
        if test {
            self.p = self.second_word();
        } else {
            self.go_on(2);
        }
    }

    /// RJM.
    pub(super) fn call(&mut self, target: Word12)
        ensures { self.new ≡ calls self.old target 2 }
    {
        self.set(target, self.place_after_p(2));
        self.p = next(target);
    }

    #[tactic(auto, using(crate::proofs::SignLemmas::uppermost_place))]
    pub(super) fn is_negative(&self) -> bool
        ensures { result ≡ is_negative self.now }
    {
        self.a.get() >= SIGN
    }

    pub(super) fn load(&mut self, value: Word18, words: u8)
        ensures { self.new ≡ loads self.old value words }
    {
        self.a = value;
        self.go_on(words);
    }

    pub(super) fn add(&mut self, value: Word18, words: u8)
        ensures { self.new ≡ loads self.old (sum self.old.a value) words }
    {
        self.load(add18(self.a, value), words);
    }

    pub(super) fn subtract(&mut self, value: Word18, words: u8)
        ensures { self.new ≡ loads self.old (difference self.old.a value) words }
    {
        self.load(sub18(self.a, value), words);
    }

    pub(super) fn differ(&mut self, value: Word18, words: u8)
        ensures { self.new ≡ loads self.old (logical_difference self.old.a value) words }
    {
        self.load(xor18(self.a, value), words);
    }

    pub(super) fn mask(&mut self, value: Word18, words: u8)
        ensures { self.new ≡ loads self.old (logical_product self.old.a value) words }
    {
        self.load(and18(self.a, value), words);
    }

    pub(super) fn store_word(&mut self, place: Word12, words: u8)
        ensures { self.new ≡ stores_word self.old place words }
    {
        self.set(place, self.a.low());
        self.go_on(words);
    }

    fn replace(&mut self, place: Word12, value: Word18, words: u8)
        ensures { self.new ≡ replaces self.old place value words }
    {
        self.set(place, value.low());
        self.load(value, words);
    }

    pub(super) fn replace_by_sum(&mut self, place: Word12, words: u8)
        ensures { self.new ≡ replaces_by_sum self.old place words }
    {
        self.replace(place, add18(self.a, self.value_at(place)), words);
    }

    pub(super) fn replace_by_one_more(&mut self, place: Word12, words: u8)
        ensures { self.new ≡ replaces_by_one_more self.old place words }
    {
        self.replace(place, add18(self.value_at(place), Word18::ONE), words);
    }

    pub(super) fn replace_by_one_less(&mut self, place: Word12, words: u8)
        ensures { self.new ≡ replaces_by_one_less self.old place words }
    {
        self.replace(place, sub18(self.value_at(place), Word18::ONE), words);
    }
}
