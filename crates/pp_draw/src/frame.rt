//! The frame of the picture: the places of turns and of lanes, the tags of elements, and what
//! stands round the lanes: the head, the style sheet, the legend, the scale.

ghost use Rattle.std.specs.Prelude.{◌≡◌, ◌<◌, ◌^◌};
ghost use Rattle.pp_text.specs.TextWriter.{Prints};
ghost use Rattle.pp_draw.specs.Frame.{are_few, band_width, foot_text, head_text, lane_top, legend_text, place, rectangle_tag, style_text, text_tag, ticks_text};

use pp_numbers::Window;
use pp_text::{TextWriter, print_short_decimal};
use std::io::Write;

/// Whether at most 100 turns are drawn; each is then wider.
fn are_few(window: Window) -> bool
    ensures { result ≡ are_few window }
{
    window.to.saturating_sub(window.from) <= 100
}

/// The place of a turn, in units of the picture: that of the nearest end of the window where it
/// lies outside.
pub(crate) fn place(window: Window, turn: u64) -> u64
    ensures place { result ≡ place window turn }
    ensures most { result < 2 ^ 40 }
{
    let width = if are_few(window) { 10 } else { 4 };
    let from = u64::from(window.from);
    let inside = turn.max(from).min(u64::from(window.to));
    width * inside.saturating_sub(from)
}

/// How wide all turns are.
pub(crate) fn band_width(window: Window) -> u64
    ensures width { result ≡ band_width window }
    ensures most { result < 2 ^ 40 }
{
    place(window, u64::from(window.to))
}

/// The upper edge of the lane with this many lanes above it.
pub(crate) fn lane_top(row: u8) -> u64
    ensures { result ≡ lane_top row }
{
    36 + 36 * u64::from(row)
}

/// Prints the tag of a rectangle of a class, at a place and of a size, without its end.
pub(crate) fn print_rectangle_tag<W: Write>(
    text: &mut TextWriter<W>,
    class: [u8; 1],
    x: u64,
    y: u64,
    width: u64,
    height: u64,
)
    ensures { Prints W.contents text.old text.new (rectangle_tag class x y width height) }
{
    text.print(b"<rect class='");
    text.print(&class);
    text.print(b"' x='");
    print_short_decimal(text, x);
    text.print(b"' y='");
    print_short_decimal(text, y);
    text.print(b"' width='");
    print_short_decimal(text, width);
    text.print(b"' height='");
    print_short_decimal(text, height);
    text.print(b"'");
}

/// Prints the tag of a text of a class, at a place.
pub(crate) fn print_text_tag<W: Write>(text: &mut TextWriter<W>, class: [u8; 1], x: u64, y: u64)
    ensures { Prints W.contents text.old text.new (text_tag class x y) }
{
    text.print(b"<text class='");
    text.print(&class);
    text.print(b"' x='");
    print_short_decimal(text, x);
    text.print(b"' y='");
    print_short_decimal(text, y);
    text.print(b"'>");
}

/// Prints the first lines of a picture with this many lanes: its size, and what it shows.
pub(crate) fn print_head<W: Write>(text: &mut TextWriter<W>, window: Window, rows: u8)
    ensures { Prints W.contents text.old text.new (head_text window rows) }
{
    let width = (band_width(window) + 220).max(640);
    let height = lane_top(rows) + 28;
    text.print(b"<svg xmlns='http://www.w3.org/2000/svg' width='");
    print_short_decimal(text, width);
    text.print(b"' height='");
    print_short_decimal(text, height);
    text.print(b"' viewBox='0 0 ");
    print_short_decimal(text, width);
    text.print(b" ");
    print_short_decimal(text, height);
    text.print(b"'>\n<title>Channels and processors, turns ");
    print_short_decimal(text, u64::from(window.from));
    text.print(b" to ");
    print_short_decimal(text, u64::from(window.to));
    text.print(b"</title>\n");
}

/// Prints colours, light and dark, the classes that have them, and the ground.
#[tactic(auto, unfolding(crate::specs::Frame::style_text))]
pub(crate) fn print_style<W: Write>(text: &mut TextWriter<W>)
    ensures { Prints W.contents text.old text.new style_text }
{
    text.print(
        b"<style>\n:root{--ink:#1b1f24;--soft:#5c6570;--line:#d5d9de;--ground:#fff;\
          --full:#2f6fb3;--empty:#cfe1f4;--lost:#c0392b;--code:#7d4fa8;--run:#9bb8a0;\
          --block:#4f8159;--held:#e3a63b}\n\
          @media(prefers-color-scheme:dark){:root{--ink:#e6e9ed;--soft:#9aa3ad;--line:#3a414a;\
          --ground:#15181c;--full:#5b9bdc;--empty:#22384f;--lost:#e06757;--code:#b48ad6;\
          --run:#4f7257;--block:#7fb38a;--held:#c98d2a}}\n\
          text{font:11px ui-monospace,Menlo,Consolas,monospace;fill:var(--ink)}\n\
          rect.z{fill:var(--ground)}rect.g{fill:var(--line)}rect.u{fill:var(--soft)}\
          rect.i,rect.s{fill:transparent}rect.a{fill:var(--empty)}rect.f{fill:var(--full)}\
          rect.l,rect.x{fill:var(--lost)}rect.c{fill:var(--code)}rect.r{fill:var(--run)}\
          rect.b{fill:var(--block)}rect.h{fill:var(--held)}\n\
          text.e,text.t{fill:var(--soft)}text.t{text-anchor:middle}text.l{fill:var(--lost);\
          text-decoration:line-through}\n</style>\n\
          <rect class='z' width='100%' height='100%'/>\n",
    );
}

/// Prints what the colours mean.
#[tactic(auto, unfolding(crate::specs::Frame::legend_text))]
pub(crate) fn print_legend<W: Write>(text: &mut TextWriter<W>)
    ensures { Prints W.contents text.old text.new legend_text }
{
    text.print(
        b"<g transform='translate(8,8)'>\n<rect class='a' width='12' height='12'/>\
          <text class='e' x='16' y='10'>active</text>\n\
          <rect class='f' x='72' width='12' height='12'/><text class='e' x='88' y='10'>\
          full</text>\n<rect class='l' x='131' width='12' height='12'/>\
          <text class='e' x='147' y='10'>lost</text>\n\
          <rect class='c' x='190' width='12' height='12'/><text class='e' x='206' y='10'>\
          function code</text>\n\
          <rect class='r' x='308' width='12' height='12'/><text class='e' x='324' y='10'>\
          running</text>\n<rect class='b' x='387' width='12' height='12'/>\
          <text class='e' x='403' y='10'>in a block</text>\n\
          <rect class='h' x='485' width='12' height='12'/><text class='e' x='501' y='10'>\
          held</text>\n<rect class='x' x='544' width='12' height='12'/>\
          <text class='e' x='560' y='10'>fault</text>\n\
          </g>\n",
    );
}

/// Prints the scale: a line and the number of a turn, if it has any.
pub(crate) fn print_ticks<W: Write>(text: &mut TextWriter<W>, window: Window, rows: u8)
    ensures { Prints W.contents text.old text.new (ticks_text window rows) }
{
    let from = u64::from(window.from);
    let spacing = if are_few(window) { 10 } else { 20 };
    for i in 0..(u64::from(window.to) + 1).saturating_sub(from) {
        let turn = from + i;
        if turn % spacing == 0 {
            let x = place(window, turn) + 80;
            print_rectangle_tag(text, *b"g", x, 32, 1, 36 * u64::from(rows) + 8);
            text.print(b"/>\n");
            print_text_tag(text, *b"t", x, lane_top(rows) + 18);
            print_short_decimal(text, turn);
            text.print(b"</text>\n");
        }
    }
}

/// Prints what the scale counts, and the end of the picture.
pub(crate) fn print_foot<W: Write>(text: &mut TextWriter<W>, rows: u8)
    ensures { Prints W.contents text.old text.new (foot_text rows) }
{
    print_text_tag(text, *b"e", 8, lane_top(rows) + 18);
    text.print(b"turn</text>\n</svg>\n");
}
