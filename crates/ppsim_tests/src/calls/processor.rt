//! A processor by its calls alone.

use pp_channel::{ChanOp, ChannelNo, Reply};
use pp_machine::{Answer, Block, BlockKind, Need, Outcome, Pp, PpState, Profile, fits};
use pp_word::Word18;
use test_bench::{EMPTY, INACTIVE, put_words, word};

/// P, A and the state of a processor.
pub(crate) type Shown = (u16, u32, PpState);

/// A processor with these words from a place on, started there with A = a.
fn started(profile: Profile, place: u16, words: &[u16], a: u32) -> Pp {
    let mut pp = Pp::new(profile);
    put_words(&mut pp, place, words);
    pp.start(word(place), Word18::truncated(a));
    pp
}

pub(crate) fn shown(pp: &Pp) -> Shown {
    (pp.p().get(), pp.a().get(), pp.state())
}

/// The words at places 0200 and 0201 (octal).
fn program(pp: &Pp) -> (u16, u16) {
    (pp.get(word(0o200)).get(), pp.get(word(0o201)).get())
}

/// Whether a processor, whatever it did before, waits for its first word, and its memory stays.
fn waits_for_a_load(profile: Profile, last: ChannelNo) -> bool {
    let block = Block {
        kind: BlockKind::Input { channel: last },
        place: word(0),
    };
    let mut pp = started(profile, 0o0200, &[0o7005, 0o0300], 0o123_456);
    pp.wait_load(last);
    let shown = (program(&pp), shown(&pp), pp.block());
    let expected = (
        (0o7005, 0o0300),
        (0, 0o10_000, PpState::Running),
        Some(block),
    );
    pp.profile() == profile && shown == expected && pp.wants() == Need::Channel(last, ChanOp::Take)
}

/// Whether IAN takes so many of these answers, and P and A are these then.
fn takes(profile: Profile, answers: &[Answer], count: usize, p: u16, a: u32) -> bool {
    let mut pp = started(profile, 0o0200, &[0o7005, 0o0300], 0);
    pp.replay(answers) == count
        && shown(&pp) == (p, a, PpState::Running)
        && program(&pp) == (0o7005, 0o0300)
}

/// Whether IAN takes a word once there is one, and no answer that is not its own.
fn takes_a_word(profile: Profile) -> bool {
    let answers = [
        Answer::Channel(Reply::Held(INACTIVE)),
        Answer::Channel(Reply::Word(word(0o0003))),
        Answer::Channel(Reply::Done),
    ];
    takes(profile, &answers, 2, 0o201, 3) && takes(profile, &[Answer::Local], 0, 0o200, 0)
}

#[test]
fn waits_and_takes_a_word(rt: HostRuntime) {
    for (profile, last) in [(Profile::Ten, 11), (Profile::Twenty, 23)] {
        assert!(rt; waits_for_a_load(profile, ChannelNo::at(last)) && takes_a_word(profile));
    }
}

/// Whether a block begins in a processor's next step.
fn begins(pp: &mut Pp, block: Block) -> bool {
    pp.wants() == Need::Local && pp.replay(&[Answer::Local]) == 1 && pp.block() == Some(block)
}

/// Whether an answer fits a processor's need of a channel, and is the last of its block.
fn ends(pp: &mut Pp, need: &Need, answer: Answer) -> bool {
    pp.wants() == *need
        && fits(need, &answer)
        && pp.give(answer) == Outcome::Moved
        && pp.block().is_none()
}

/// What an answer to a running processor's next step, decoded once, did, if it fits.
fn step_decoded(pp: &mut Pp, answer: Answer) -> Option<Outcome> {
    let PpState::Running = pp.state() else {
        return None;
    };
    let (next, d) = pp.next_instruction();
    if fits(&pp.wants_next(&next, d), &answer) {
        Some(pp.give_next(&next, d, answer))
    } else {
        None
    }
}

/// IAN, and IAM of one word, go as they should, each held once. An answer that does not fit does
/// nothing. After each P and A are these, and a block is open or none.
#[test]
fn steps_decoded_once(rt: HostRuntime) {
    let held = Answer::Channel(Reply::Held(EMPTY));
    let taken = Answer::Channel(Reply::Word(word(1)));
    let last = Answer::Channel(Reply::Word(word(0o7777)));
    let mut pp = started(Profile::Ten, 0o0200, &[0o7005, 0o7105, 0o0300], 2);
    for (answer, outcome, p, a, is_open) in [
        (Answer::Local, None, 0o200, 2, false),
        (held, Some(Outcome::Held), 0o200, 2, false),
        (taken, Some(Outcome::Moved), 0o201, 1, false),
        (held, None, 0o201, 1, false),
        (Answer::Local, Some(Outcome::Moved), 0o201, 1, true),
        (held, Some(Outcome::Held), 0o201, 1, true),
        (last, Some(Outcome::Moved), 0o203, 0, false),
    ] {
        assert!(rt;
            step_decoded(&mut pp, answer) == outcome
                && shown(&pp) == (p, a, PpState::Running)
                && pp.block().is_some() == is_open
        );
    }
    assert!(rt; pp.get(word(0o300)).get() == 0o7777);
}

#[test]
fn input_block_by_steps(rt: HostRuntime) {
    let channel = ChannelNo::at(5);
    let block = Block {
        kind: BlockKind::Input { channel },
        place: word(0o0300),
    };
    let need = Need::Channel(channel, ChanOp::Take);
    let mut pp = started(Profile::Ten, 0o0200, &[0o7105, 0o0300, 0o0300], 2);
    let is_begun = begins(&mut pp, block);
    let before = pp.copy();
    assert!(rt;
        is_begun
            && ends(&mut pp, &need, Answer::Channel(Reply::Held(INACTIVE)))
            && shown(&pp) == (0o202, 2, PpState::Running)
            && shown(&before) == (0o200, 2, PpState::Running)
    );
}
