ghost use Rattle.std.specs.Prelude.{◌≡◌, ◌==◌, ◌<◌, ◌∷◌, IfSome, length, option_map, position};
ghost use Rattle.pp_command.specs.NumberList.{numbers_in, numbers_of};

/// The first item of a list, and what stands behind its comma, if it has one.
pub(crate) fn first_of(list: &[u8]) -> (&[u8], Option<&[u8]>)
    ensures parted { numbers_of list.now
        ≡ result.0.now ∷ numbers_in (option_map (λ behind. behind.now) result.1) }
    ensures shorter { IfSome result.1 (λ behind. length behind.now < length list.now) }
{
    match place_of(b',', list) {
        Some(place) => (&list[..place], Some(&list[place + 1..])),
        None => (list, None),
    }
}

/// The first place of a byte in a text, if it has one.
pub(crate) fn place_of(byte: u8, text: &[u8]) -> Option<usize>
    ensures { result ≡ position (λ other. other == byte) text.now }
{
    for (place, other) in text.iter().enumerate() {
        if *other == byte {
            return Some(place);
        }
    }
    None
}
