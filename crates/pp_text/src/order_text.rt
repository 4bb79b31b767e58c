//! The text of an order of steps.

ghost use Rattle.std.specs.Prelude.{◌≡◌, ◌<◌, ◌==◌, length, take_while};
ghost use Rattle.pp_text.specs.OrderText.{order_text, row_text};
ghost use Rattle.pp_text.specs.TextWriter.{Prints};

use crate::{TextWriter, print_short_decimal, print_short_octal};
use pp_machine::PpNo;
use std::io::Write;

/// Prints an order of steps as `--order` reads it, like `0:3,1,11:20`: steps in a row of one
/// processor are one item. Nothing is printed of no step.
pub fn print_order<W: Write>(text: &mut TextWriter<W>, order: &[PpNo])
    ensures { Prints W.contents text.old text.new (order_text order.now) }
{
    let mut place = 0;
    while place < order.len() {
        let n = order[place];
        let count = in_a_row(n, &order[place..]);
        print_row(text, n, count);
        place += count;
        if place < order.len() {
            text.print(b",");
        }
    }
}

/// How many steps at the front are of this processor.
fn in_a_row(n: PpNo, order: &[PpNo]) -> usize
    ensures { result ≡ length (take_while (λ k. k == n) order.now) }
{
    order.iter().take_while(|k| k.get() == n.get()).count()
}

/// Prints `0:3`, or `1` for a single step.
fn print_row<W: Write>(text: &mut TextWriter<W>, n: PpNo, count: usize)
    ensures { Prints W.contents text.old text.new
        (row_text (record { processor = n; count = count })) }
{
    print_short_octal(text, 2, u64::from(n.get()));
    if count != 1 {
        text.print(b":");
        print_short_decimal(text, count as u64);
    }
}
