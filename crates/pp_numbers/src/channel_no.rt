ghost use Rattle.std.specs.Prelude.{◌≡◌, ℕ, ◌<◌, ◌↔◌, IsTrue, IsSome, IfSome};
ghost use Rattle.std.proofs.Common.{ap};
ghost use Rattle.pp_numbers.specs.ChannelNo.{channel_count, names_channel, channel_index, channel_number, channel_places};

use std::marker::Model;

/// The number of data channels of the larger machine (decimal).
pub const CHANNELS: usize = 24;

/// The number of a data channel, 0 to 13 or 20 to 33 (octal). It is kept as its place in a list of
/// all channels; contracts see it as the number.
#[derive(Clone, Copy, Debug, PartialEq, Eq)]
pub struct ChannelNo {
    place: u8,
}

impl Model for ChannelNo {
    ghost Value = { ℕ };

    ghost view = { λ c. channel_number c.place };

    ghost invariant = { λ c. IsTrue (names_channel (channel_number c.place)) };

    ghost inverse = { λ n. record { place = channel_index n } };

    ghost inverse_ok = { λ c names.
        ap (λ k. record { place = k }) (channel_places.place_again c.place names) };
}

#[tactic(auto, using(crate::specs::ChannelNo::channel_places), // numbers and places
unfolding(crate::specs::ChannelNo::names_channel, crate::specs::ChannelNo::channel_number, // gap
crate::specs::GappedNumbers::is_number, crate::specs::GappedNumbers::number_of))]
impl ChannelNo {
    /// The channel of this number, or nothing from 14 to 17 (octal) and from 34 on.
    pub fn new(number: u8) -> Option<Self>
        ensures exists { IsSome result ↔ IsTrue (names_channel number) }
        ensures value { IfSome result (λ c. c ≡ number) }
    {
        let place = match number {
            0..=0o13 => number,
            0o20..=0o33 => number - 4,
            _ => return None,
        };
        Some(ChannelNo { place })
    }

    /// Its number.
    pub fn get(self) -> u8
        ensures value { result ≡ self }
        ensures names { IsTrue (names_channel result) }
    {
        self.place + if self.place < 0o14 { 0 } else { 4 }
    }

    /// Its place in a list of all channels in order of number.
    pub fn index(self) -> usize
        ensures place { result ≡ channel_index self }
        ensures below { result < channel_count }
        // No other channel has this place.
        ensures own { (n : ℕ) → IsTrue (names_channel n) → channel_index n ≡ result → n ≡ self }
    {
        usize::from(self.place)
    }

    /// The channel at a place of that list.
    pub fn at(place: usize) -> Self
        requires { place < channel_count }
        ensures number { result ≡ channel_number place }
        ensures place { channel_index result ≡ place }
    {
        ChannelNo { place: place as u8 }
    }
}
