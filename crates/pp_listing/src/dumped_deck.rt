ghost use Rattle.std.specs.Prelude.{◌≡◌, None};
ghost use Rattle.pp_text.specs.TextWriter.{Prints};
ghost use Rattle.pp_listing.specs.Dump.{GoesOnFrom, IsDumped, dump, first_busy, order_comment};

use crate::Busy;
use crate::deck_lines::print_size;
use crate::going_on::first_busy;
use crate::listed_deck::print_central;
use crate::sections::print_sections;
use pp_deck::Deck;
use pp_machine::PpNo;
use pp_text::{TextWriter, print_order};
use std::alloc::Allocator;
use std::io::Write;
use thiserror::Error;

/// Why a deck was not dumped.
#[derive(Clone, Copy, Debug, PartialEq, Eq, Error)]
pub enum DumpFault {
    /// The machine is not between programs, for this reason; nothing was written.
    #[error("not between programs: {0}")]
    NotBetweenPrograms(Busy),
    /// The writer failed, or took nothing.
    #[error("write fault")]
    Write,
}

/// Writes the dump of a deck that may have run: the listing of a deck to go on from, which has
/// neither histories nor turns nor trace, names each processor in use, and starts those that are
/// running; and flushes the writer. A processor is in use if the deck names it or dead start made
/// it wait for its program. An order to go on with, if it has steps, stands first, as a comment.
/// The text goes out in pieces, and takes no memory.
pub fn write_dump<A: Allocator, W: Write>(
    writer: &mut W,
    deck: &Deck<A>,
    order: &[PpNo],
) -> Result<(), DumpFault>
    ensures dumped { IsDumped order.now
        (record { machine = deck.now.machine; named = deck.now.named })
        result (W.contents writer.old) (W.contents writer.new) }
    ensures goes_on { first_busy deck.now.machine ≡ None → GoesOnFrom
        (dump order.now (record { machine = deck.now.machine; named = deck.now.named }))
        (record { machine = deck.now.machine; named = deck.now.named }) }
{
    if let Some(going_on) = first_busy(&deck.machine) {
        return Err(DumpFault::NotBetweenPrograms(going_on));
    }
    let named = deck.in_use();
    let mut text = TextWriter::new(writer);
    print_order_comment(&mut text, order);
    print_size(&mut text, deck.machine.central());
    print_central(&mut text, deck.machine.central());
    print_sections(&mut text, &deck.machine, &named);
    text.finish().map_err(|_| DumpFault::Write)
}

/// Prints `* GO ON WITH --order 1,2,3` and a line feed, if the order has steps.
fn print_order_comment<W: Write>(text: &mut TextWriter<W>, order: &[PpNo])
    ensures { Prints W.contents text.old text.new (order_comment order.now) }
{
    if order.is_empty() {
        return;
    }
    text.print(b"* GO ON WITH --order ");
    print_order(text, order);
    text.print(b"\n");
}
