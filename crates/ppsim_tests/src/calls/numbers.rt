//! The numbers of processors and channels, and the place of each in order of number.

use pp_channel::{CHANNELS, ChannelNo};
use pp_machine::{PROCESSORS, PpNo, Profile};
use test_bench::first;

/// The numbers of the processors in the barrel's order; the smaller machine has the first ten.
const NUMBERS_OF_PROCESSORS: [u8; 20] = [
    0o0, 0o1, 0o2, 0o3, 0o4, 0o5, 0o6, 0o7, 0o10, 0o11, 0o20, 0o21, 0o22, 0o23, 0o24, 0o25, 0o26,
    0o27, 0o30, 0o31,
];

/// The numbers of the channels in order; the smaller machine has the first twelve.
const NUMBERS_OF_CHANNELS: [u8; 24] = [
    0o0, 0o1, 0o2, 0o3, 0o4, 0o5, 0o6, 0o7, 0o10, 0o11, 0o12, 0o13, 0o20, 0o21, 0o22, 0o23, 0o24,
    0o25, 0o26, 0o27, 0o30, 0o31, 0o32, 0o33,
];

/// The number and the place that a processor or channel of this number has to have, if it is one of
/// these.
fn expected(numbers: &[u8], number: u8) -> Option<(u8, usize)> {
    for (place, named) in numbers.iter().enumerate() {
        if *named == number {
            return Some((number, place));
        }
    }
    None
}

fn shown_processor(processor: Option<PpNo>) -> Option<(u8, usize)> {
    match processor {
        Some(n) => Some((n.get(), n.index())),
        None => None,
    }
}

fn shown_channel(channel: Option<ChannelNo>) -> Option<(u8, usize)> {
    match channel {
        Some(c) => Some((c.get(), c.index())),
        None => None,
    }
}

/// The first number that is taken for another processor or channel than those of these lists, or
/// wrongly for none, by a profile or by none.
fn wrong_number(profile: Option<Profile>, processors: &[u8], channels: &[u8]) -> Option<u8> {
    for number in 0..=255u8 {
        let (processor, channel) = match profile {
            Some(profile) => (profile.processor(number), profile.channel(number)),
            None => (PpNo::new(number), ChannelNo::new(number)),
        };
        let is_processor = shown_processor(processor) == expected(processors, number);
        if !is_processor || shown_channel(channel) != expected(channels, number) {
            return Some(number);
        }
    }
    None
}

/// Whether the numbers stand in their places in the barrel's order and in that of channels, and
/// after each processor the one at the next place comes.
fn are_in_place() -> bool {
    let mut n = first();
    for place in 0..PROCESSORS {
        if n != PpNo::at(place) || n.get() != NUMBERS_OF_PROCESSORS[place] {
            return false;
        }
        n = n.next();
    }
    for place in 0..CHANNELS {
        if ChannelNo::at(place).get() != NUMBERS_OF_CHANNELS[place] {
            return false;
        }
    }
    n == first()
}

/// Whether a profile has exactly these processors and channels, at the places that they have in the
/// greater one.
fn has_numbers(profile: Profile, processors: &[u8], channels: &[u8]) -> bool {
    profile.processors() == processors.len()
        && profile.channels() == channels.len()
        && wrong_number(Some(profile), processors, channels).is_none()
}

#[test]
fn numbers_of_all_and_of_each_profile(rt: HostRuntime) {
    let (processors, channels) = (&NUMBERS_OF_PROCESSORS, &NUMBERS_OF_CHANNELS);
    assert!(rt; PROCESSORS == 20 && CHANNELS == 24 && are_in_place());
    assert!(rt; wrong_number(None, processors, channels).is_none());
    assert!(rt; has_numbers(Profile::Ten, &processors[..10], &channels[..12]));
    assert!(rt; has_numbers(Profile::Twenty, processors, channels));
}
