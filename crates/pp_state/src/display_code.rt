ghost use Rattle.std.specs.Prelude.{◌≡◌, ◌<◌};
ghost use Rattle.pp_text.specs.TextWriter.{Prints};
ghost use Rattle.pp_state.specs.DisplayCode.{display_character, displayed};

use pp_text::TextWriter;
use std::io::Write;

/// Prints the last characters of a word in display code, as many as asked for.
pub(crate) fn print_displayed<W: Write>(text: &mut TextWriter<W>, width: u32, word: u64)
    ensures { Prints W.contents text.old text.new (displayed width word) }
{
    if width == 0 {
        return;
    }
    print_displayed(text, width - 1, word / 0o100);
    text.print(&[display_character((word % 0o100) as usize)]);
}

/// The last two characters of a word in display code.
pub(crate) fn displayed2(word: u64) -> [u8; 2]
    ensures { result ≡ displayed 2 word }
{
    [
        display_character((word / 0o100 % 0o100) as usize),
        display_character((word % 0o100) as usize),
    ]
}

/// The character of a code.
#[tactic(auto, unfolding(crate::specs::DisplayCode::display_characters))]
fn display_character(code: usize) -> u8
    requires { code < 0o100 }
    ensures { result ≡ display_character code }
{
    b" ABCDEFGHIJKLMNOPQRSTUVWXYZ0123456789+-*/()$= ,.#[]%\"_!&'?<>@\\^;"[code]
}
