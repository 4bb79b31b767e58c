ghost use Rattle.std.specs.Prelude.{◌<◌, length};
ghost use Rattle.pp_text.specs.Written.{IsWritten};
ghost use Rattle.pp_state.specs.CentralText.{central_text, shown_word};

use crate::display_code::print_displayed;
use pp_machine::Central;
use pp_numbers::Bounds;
use pp_text::{Lines, TextWriter, WriteFault, print_each_below, print_octal};
use std::alloc::Allocator;
use std::io::Write;

/// Writes the central words within the bounds that are not 0, a line each, in octal and in display
/// code, as `000010  00010002000300040005   A B C D E`, and flushes the writer. The text goes out
/// in pieces, and takes no memory. Where the writer fails, the rest of the text is lost.
pub fn write_central<A: Allocator, W: Write>(
    writer: &mut W,
    central: &Central<A>,
    bounds: Bounds,
) -> Result<(), WriteFault>
    ensures { IsWritten (central_text bounds central.now) result
        (W.contents writer.old) (W.contents writer.new) }
{
    let mut text = TextWriter::new(writer);
    print_each_below(&mut text, central.size(), &CentralLines { central, bounds });
    text.finish()
}

/// The lines of central words.
#[derive(Drop)]
struct CentralLines<'a, A: Allocator> {
    central: &'a Central<A>,
    bounds: Bounds,
}

impl<'a, A: Allocator, W: Write> Lines<u32, W> for CentralLines<'a, A> {
    ghost text_of = { λ lines. shown_word lines.bounds lines.central.now };

    ghost Has = { λ lines address. address < length lines.central.now };

    fn print(&self, text: &mut TextWriter<W>, address: &u32) {
        let word = self.central.words()[*address as usize].get();
        if self.bounds.meets(*address, *address) && word != 0 {
            print_octal(text, 6, u64::from(*address));
            text.print(b"  ");
            print_octal(text, 20, word);
            text.print(b"  ");
            print_displayed(text, 10, word);
            text.print(b"\n");
        }
    }
}
