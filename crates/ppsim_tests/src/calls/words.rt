//! Words: ranges, the two zeros, shifts, addresses, codes and the parts of a central word.

use pp_word::{
    Opcode, Word6, Word12, Word18, Word60, add18, and18, clear18, complement18, decode,
    index_address, join60, next, relative, shift18, split60, sub18, xor18,
};

fn six(number: u8) -> Word6 {
    Word6::truncated(number)
}

fn twelve(number: u32) -> Word12 {
    Word12::truncated(number)
}

fn eighteen(number: u32) -> Word18 {
    Word18::truncated(number)
}

const MOST: u64 = 0o77_777_777_777_777_777_777;

#[test]
fn ranges(rt: HostRuntime) {
    assert!(rt;
        [Word6::new(0o77), Word6::new(0o100)] == [Some(six(0o77)), None]
            && [Word12::new(0o7777), Word12::new(0o10_000)] == [Some(twelve(0o7777)), None]
            && [Word18::new(0o777_777), Word18::new(0o1_000_000)]
                == [Some(eighteen(0o777_777)), None]
            && [Word60::new(MOST), Word60::new(MOST + 1)] == [Some(Word60::truncated(MOST)), None]
    );
}

/// Constants, the greatest words, and numbers of more bits, which are cut off.
#[test]
fn values(rt: HostRuntime) {
    let cut = Word60::truncated(0o100_000_000_000_000_000_005);
    let twelve_bits = [
        Word12::ZERO.get(),
        twelve(0o7777).get(),
        twelve(0o12345).get(),
    ];
    let eighteen_bits = [
        Word18::ZERO.get(),
        Word18::ONE.get(),
        eighteen(0o777_777).get(),
    ];
    let sixty_bits = [Word60::ZERO.get(), Word60::truncated(MOST).get(), cut.get()];
    assert!(rt;
        (
            six(0o77).get(),
            six(0o177).get(),
            eighteen(0o1_234_567).get()
        ) == (0o77, 0o77, 0o234_567)
            && (twelve_bits, eighteen_bits, sixty_bits)
                == ([0, 0o7777, 0o2345], [0, 1, 0o777_777], [0, MOST, 5])
    );
}

#[test]
fn conversions(rt: HostRuntime) {
    assert!(rt;
        [eighteen(0o123_456).low(), Word12::from(six(0o52))] == [twelve(0o3456), twelve(0o52)]
            && [Word18::from(six(0o52)), Word18::from(twelve(0o7052))]
                == [eighteen(0o52), eighteen(0o7052)]
    );
}

#[test]
fn two_zeros(rt: HostRuntime) {
    let (zero, all_ones, five) = (Word18::ZERO, eighteen(0o777_777), eighteen(5));
    let results = [
        add18(all_ones, zero),
        sub18(all_ones, zero),
        sub18(five, five),
        add18(all_ones, all_ones),
        add18(five, complement18(five)),
    ];
    assert!(rt; results == [zero, all_ones, zero, all_ones, zero]);
}

#[test]
fn shifts(rt: HostRuntime) {
    for &(before, d, after) in &[
        (0o770_000, 0o06, 0o000_077),
        (0o000_100, 0o71, 0o000_001),
        (0o770_000, 0o22, 0o770_000),
        (0o770_000, 0o77, 0o770_000),
        (0o770_000, 0o40, 0o000_000),
    ] {
        assert!(rt;
            shift18(eighteen(before), six(d)) == eighteen(after),
            "by {d}"
        );
    }
}

#[test]
fn logic(rt: HostRuntime) {
    let (word, mask) = (eighteen(0o770_000), eighteen(0o070_707));
    let results = [and18(word, mask), xor18(word, mask), clear18(word, mask)];
    let expected = [
        eighteen(0o070_000),
        eighteen(0o700_707),
        eighteen(0o700_000),
    ];
    assert!(rt; results == expected);
}

#[test]
fn addresses(rt: HostRuntime) {
    let last = twelve(0o7777);
    let results = [
        index_address(last, twelve(1)),
        index_address(twelve(0o100), twelve(0o25)),
        relative(last, six(0o37)),
        relative(twelve(0o10), six(0o76)),
        next(last),
    ];
    let expected = [
        twelve(1),
        twelve(0o125),
        twelve(0o36),
        twelve(0o7),
        Word12::ZERO,
    ];
    assert!(rt; results == expected);
}

#[test]
fn codes(rt: HostRuntime) {
    let (op, d) = decode(twelve(0o5217));
    let are_long = [op.is_long(), Opcode::PSN25.is_long()];
    let names = [Opcode::PSN24.mnemonic(), Opcode::FNC.mnemonic()];
    assert!(rt;
        op == Opcode::SBM
            && (op.code(), d, are_long, names) == (0o52, six(0o17), [true, false], ["PSN", "FNC"])
    );
}

#[test]
fn central_words(rt: HostRuntime) {
    let word = Word60::truncated(0o0001_0002_0003_0004_0005);
    let parts = [twelve(1), twelve(2), twelve(3), twelve(4), twelve(5)];
    assert!(rt; split60(word) == parts && join60(&parts) == word);
}
