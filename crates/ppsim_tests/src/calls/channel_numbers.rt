//! Which numbers d name a channel, on each machine.

use pp_machine::{Answer, BlockKind, Need, Pp, PpState, Profile};
use pp_word::Word18;
use test_bench::{put_program, put_words, word};

/// A processor at an instruction at 1000, with A; place 0005 holds 0002 (all octal).
fn before(profile: Profile, words: [u16; 2], a: u32) -> Pp {
    let mut pp = Pp::new(profile);
    put_words(&mut pp, 0o0005, &[0o0002]);
    put_program(&mut pp, 0o1000, &words);
    pp.start(word(0o1000), Word18::truncated(a));
    pp
}

/// Whether a processor's next step, which needs nothing, is made.
fn begins(pp: &mut Pp) -> bool {
    pp.wants() == Need::Local && pp.replay(&[Answer::Local]) == 1
}

fn shown(pp: &Pp) -> (u16, u32) {
    (pp.p().get(), pp.a().get())
}

/// The codes 64 to 67 and 70 to 77 (octal), each with d = 00.
const CODES_OF_CHANNELS: [u16; 12] = [
    0o6400, 0o6500, 0o6600, 0o6700, 0o7000, 0o7100, 0o7200, 0o7300, 0o7400, 0o7500, 0o7600, 0o7700,
];

/// Whether the first step of an instruction is fault 3, with P and A as they were.
fn is_fault(profile: Profile, code: u16) -> bool {
    let mut pp = before(profile, [code, 0o2345], 0o123477);
    begins(&mut pp) && pp.state() == PpState::Fault(3) && shown(&pp) == (0o1000, 0o123477)
}

/// The channel to which an instruction goes, at once or by the block that it begins.
fn channel_of(profile: Profile, code: u16) -> Option<u8> {
    let mut pp = before(profile, [code, 0o2345], 0o123477);
    let need = pp.wants();
    if let Need::Channel(channel, _) = &need {
        return Some(channel.get());
    }
    if !begins(&mut pp) {
        return None;
    }
    let block = pp.block()?;
    match &block.kind {
        BlockKind::Input { channel } | BlockKind::Output { channel } => Some(channel.get()),
        BlockKind::CentralIn { .. } | BlockKind::CentralOut { .. } => None,
    }
}

/// Whether the instructions with this d go to the channel of this number, or are the fault if there
/// is none.
fn all_go_to(profile: Profile, d: u8, expected: Option<u8>) -> bool {
    for code in CODES_OF_CHANNELS {
        let word = code | u16::from(d);
        let named = channel_of(profile, word);
        if named != expected || is_fault(profile, word) == expected.is_some() {
            return false;
        }
    }
    true
}

/// A d from 14 on is fault 3 on the smaller machine, on the greater one from 14 to 17 and from 34
/// on (octal).
#[test]
fn channels_of_each_profile(rt: HostRuntime) {
    for d in 0..0o100u8 {
        let near = if d < 0o14 { Some(d) } else { None };
        let far = if d >= 0o20 && d < 0o34 { Some(d) } else { near };
        assert!(rt;
            all_go_to(Profile::Ten, d, near) && all_go_to(Profile::Twenty, d, far),
            "{d:o}"
        );
    }
}
