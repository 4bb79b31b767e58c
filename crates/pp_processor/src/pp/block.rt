ghost use Rattle.std.specs.Prelude.{◌≡◌, ◌-◌, ◌<◌, Some};
ghost use Rattle.pp_word.specs.{Address.next_place, OnesComplement.sum};
ghost use Rattle.pp_processor.specs.Block.{receives, central_from, ends, starts, counts_down, counts_up, block_word};
ghost use Rattle.pp_processor.specs.{NeedAndEffect.answered, Processor.HasWordsLeft};

use crate::{Answer, Block, BlockKind, PAST_CENTRAL_MEMORY, Pp, PpState};
use pp_channel::{ChannelNo, Reply};
use pp_word::{Word12, Word18, Word60, add18, join60, next, split60, sub18};

/// One less, and 0 from 0.
fn one_less(left: Word12) -> Word12
    ensures { result ≡ left - 1 }
{
    Word12::truncated(u32::from(left.get()).saturating_sub(1))
}

/// The sum of A and 1, by plain addition if no end-around carry is possible.
fn one_more(a: Word18) -> Word18
    ensures { result ≡ sum a 1 }
{
    if a.get() < 0o777_776 {
        Word18::truncated(a.get() + 1)
    } else {
        add18(a, Word18::ONE)
    }
}

/// The last place (octal) from which five words fit before the end of memory, with no wrap to 0000.
const LAST_OF_FIVE: u16 = 0o7773;

/// The place after one that is not the last.
fn following_place(place: Word12) -> Word12
    requires { place < 0o7777 }
    ensures { result ≡ next_place place }
{
    Word12::new(place.get() + 1).unwrap_or(place)
}

impl Pp {
    /// Stores the five parts of a central word at a place and the four after it.
    pub(super) fn receive(&mut self, place: Word12, central: Word60)
        ensures { self.new ≡ receives self.old place central }
    {
        if place.get() > LAST_OF_FIVE {
            return self.receive_round(place, central);
        }
        let [first, second, third, fourth, fifth] = split60(central);
        self.set(place, first);
        let place = following_place(place);
        self.set(place, second);
        let place = following_place(place);
        self.set(place, third);
        let place = following_place(place);
        self.set(place, fourth);
        let place = following_place(place);
        self.set(place, fifth);
    }

    /// The same, where place 0000 may follow 7777 (octal).
    fn receive_round(&mut self, place: Word12, central: Word60)
        ensures { self.new ≡ receives self.old place central }
    {
        let [one, two, three, four, five] = split60(central);
        self.set(place, one);
        let place = next(place);
        self.set(place, two);
        let place = next(place);
        self.set(place, three);
        let place = next(place);
        self.set(place, four);
        let place = next(place);
        self.set(place, five);
    }

    /// The central word of the five words at a place and the four after it.
    pub(super) fn central_from(&self, place: Word12) -> Word60
        ensures { result ≡ central_from self.now place }
    {
        if place.get() > LAST_OF_FIVE {
            return self.central_from_round(place);
        }
        let second = following_place(place);
        let third = following_place(second);
        let fourth = following_place(third);
        join60(&[
            self.get(place),
            self.get(second),
            self.get(third),
            self.get(fourth),
            self.get(following_place(fourth)),
        ])
    }

    /// The same, where place 0000 may follow 7777 (octal).
    fn central_from_round(&self, place: Word12) -> Word60
        ensures { result ≡ central_from self.now place }
    {
        let second = next(place);
        let third = next(second);
        let fourth = next(third);
        join60(&[
            self.get(place),
            self.get(second),
            self.get(third),
            self.get(fourth),
            self.get(next(fourth)),
        ])
    }

    /// The end of a block: P goes to the place after the place whose number stands in place 0000.
    fn end(&mut self)
        ensures { self.new ≡ ends self.old }
    {
        self.p = next(self.get(Word12::ZERO));
        self.block = None;
    }

    /// The start of a block, at the place of the second word.
    pub(super) fn start_block(&mut self, count: u32, kind: BlockKind)
        requires running { self.old.state ≡ PpState.Running }
        requires left { 0 < count → HasWordsLeft kind }
        ensures { self.new ≡ starts self.old count kind }
    {
        let place = self.second_word();
        self.set(Word12::ZERO, next(self.p));
        if count == 0 {
            self.end();
        } else {
            self.block = Some(Block { kind, place });
        }
    }

    /// Counts a word that IAM or OAM has moved.
    fn count_down(&mut self, kind: BlockKind, place: Word12)
        requires running { self.old.state ≡ PpState.Running }
        requires left { HasWordsLeft kind }
        ensures { self.new ≡ counts_down self.old kind place }
    {
        self.a = sub18(self.a, Word18::ONE);
        if self.a.get() == 0 {
            self.end();
        } else {
            let place = next(place);
            self.block = Some(Block { kind, place });
        }
    }

    /// Counts a central word that CRM or CWM has moved; `left` remain.
    fn count_up(&mut self, left: Word12, kind: BlockKind, place: Word12)
        requires running { self.old.state ≡ PpState.Running }
        requires left { 0 < left → HasWordsLeft kind }
        ensures { self.new ≡ counts_up self.old left kind place }
    {
        self.a = one_more(self.a);
        if left.get() == 0 {
            self.end();
        } else {
            let place = Word12::truncated(u32::from(place.get()) + 5);
            self.block = Some(Block { kind, place });
        }
    }

    /// One central word of CRM, with the answer to its need.
    #[inline(always)]
    pub(super) fn move_central_in(&mut self, left: Word12, place: Word12, word: Option<Word60>)
        requires running { self.old.state ≡ PpState.Running }
        requires block { self.old.block ≡ Some
            (record { kind = BlockKind.CentralIn left; place = place }) }
        ensures { self.new ≡ answered (block_word
            (BlockKind.CentralIn left) place self.old) self.old (Answer.Read word) }
    {
        match word {
            Some(central) => {
                self.receive(place, central);
                let left = one_less(left);
                self.count_up(left, BlockKind::CentralIn { left }, place);
            }
            None => self.fault(PAST_CENTRAL_MEMORY),
        }
    }

    /// One central word of CWM, with the answer to its need.
    #[inline(always)]
    pub(super) fn move_central_out(&mut self, left: Word12, place: Word12, written: bool)
        requires running { self.old.state ≡ PpState.Running }
        requires block { self.old.block ≡ Some
            (record { kind = BlockKind.CentralOut left; place = place }) }
        ensures { self.new ≡ answered (block_word
            (BlockKind.CentralOut left) place self.old) self.old (Answer.Wrote written) }
    {
        if written {
            let left = one_less(left);
            self.count_up(left, BlockKind::CentralOut { left }, place);
        } else {
            self.fault(PAST_CENTRAL_MEMORY);
        }
    }

    /// One word of IAM, with the answer to its need: an inactive channel closes it with a word 0.
    #[inline(always)]
    pub(super) fn move_input(&mut self, channel: ChannelNo, place: Word12, reply: Reply)
        requires running { self.old.state ≡ PpState.Running }
        requires block { self.old.block ≡ Some
            (record { kind = BlockKind.Input channel; place = place }) }
        ensures { self.new ≡ answered (block_word
            (BlockKind.Input channel) place self.old) self.old (Answer.Channel reply) }
    {
        match &reply {
            Reply::Word(word) => {
                self.set(place, *word);
                self.count_down(BlockKind::Input { channel }, place);
            }
            Reply::Held(flags) if !flags.active => {
                self.set(place, Word12::ZERO);
                self.end();
            }
            _ => {}
        }
    }

    /// One word of OAM, with the answer to its need: an inactive channel ends it.
    #[inline(always)]
    pub(super) fn move_output(&mut self, channel: ChannelNo, place: Word12, reply: Reply)
        requires running { self.old.state ≡ PpState.Running }
        requires block { self.old.block ≡ Some
            (record { kind = BlockKind.Output channel; place = place }) }
        ensures { self.new ≡ answered (block_word
            (BlockKind.Output channel) place self.old) self.old (Answer.Channel reply) }
    {
        match reply {
            Reply::Done => self.count_down(BlockKind::Output { channel }, place),
            Reply::Held(flags) if !flags.active => self.end(),
            _ => {}
        }
    }
}
