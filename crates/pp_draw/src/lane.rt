ghost use Rattle.std.specs.Prelude.{◌≡◌, ◌<◌, ◌^◌, ◌++◌, [], ◌∷◌, ℕ, List, None};
ghost use Rattle.pp_text.specs.TextWriter.{Prints};
ghost use Rattle.pp_draw.specs.Lane.{band_element, free_after, lane_head, part_class, part_elements, part_of, still_drawn};
ghost use Rattle.pp_draw.specs.declared.condition.Phase.{Phase};

use crate::frame::{band_width, lane_top, place, print_rectangle_tag, print_text_tag};
use crate::{Look, Phase};
use pp_channel::Event;
use pp_numbers::Window;
use pp_text::{TextWriter, print_short_decimal};
use std::io::Write;

/// What is drawn of a phase: a band from a place to another, for the turns from one on and before
/// another (decimal); and whether a Disconnect lost its word.
#[derive(Clone, Copy)]
pub struct Part {
    pub start: u64,
    pub end: u64,
    pub since: u64,
    pub until: u64,
    pub look: Look,
    pub is_lost: bool,
}

impl Part {
    /// That of a phase and the next, if there is one.
    fn of(window: Window, phase: &Phase, next: &Option<Phase>) -> Part
        ensures part { result ≡ part_of window phase.now next.now }
        ensures most { result.start < 2 ^ 40 }
    {
        let (until, is_lost) = match (&phase.look, next) {
            (Look::Channel(Event::Function(_)), _) => (phase.since.saturating_add(1), false),
            (Look::Channel(Event::Put(_)), Some(next))
                if matches!(next.look, Look::Channel(Event::Disconnect)) => (next.since, true),
            (_, Some(next)) => (next.since, false),
            (_, None) => (u64::from(window.to), false),
        };
        Part {
            start: place(window, phase.since),
            end: place(window, until),
            since: phase.since,
            until,
            look: phase.look,
            is_lost,
        }
    }

    /// Its class: a lost word has one of its own.
    fn class(&self) -> [u8; 1]
        ensures { result ≡ part_class self.now }
    {
        if self.is_lost {
            *b"l"
        } else {
            self.look.face().class
        }
    }
}

/// How far a lane is printed: its phase that may go on, and the place from which there is room for
/// a label.
#[derive(Clone, Copy)]
pub(crate) struct Lane {
    window: Window,
    name: [u8; 4],
    current: Option<Phase>,
    free: u64,
}

impl Lane {
    /// Prints how the lane with this name begins, with this many lanes above it: its name, and a
    /// line under all turns.
    pub(crate) fn begin<W: Write>(
        text: &mut TextWriter<W>,
        window: Window,
        name: [u8; 4],
        row: u8,
    ) -> Lane
        ensures lane { result ≡ record { window = window; name = name; current = None; free = 0 } }
        ensures text { Prints W.contents text.old text.new (lane_head window row name) }
    {
        text.print(b"<g transform='translate(80,");
        print_short_decimal(text, lane_top(row));
        text.print(b")'>\n<text x='-72' y='26'>");
        text.print(&name);
        text.print(b"</text>\n<rect class='u' y='30' width='");
        print_short_decimal(text, band_width(window));
        text.print(b"' height='1'/>\n");
        Lane {
            window,
            name,
            current: None,
            free: 0,
        }
    }

    /// Takes in a phase, and prints the one before if it is over.
    pub(crate) fn take<W: Write>(&mut self, text: &mut TextWriter<W>, since: u64, look: Look)
        ensures { (printed : List ℕ) × Prints W.contents text.old text.new printed
            × ((rest : List Phase)
            → still_drawn self.old (record { since = since; look = look } ∷ rest)
            ≡ printed ++ still_drawn self.new rest) }
    {
        let next = Some(Phase { since, look });
        let Some(current) = self.current else {
            self.current = next;
            return;
        };
        if current.look.continues(&look) {
            return;
        }
        let part = Part::of(self.window, &current, &next);
        self.free = print_part(text, &self.name, self.free, &part);
        self.current = next;
    }

    /// Prints the last phase.
    pub(crate) fn finish<W: Write>(&self, text: &mut TextWriter<W>)
        ensures { Prints W.contents text.old text.new (still_drawn self.now []) }
    {
        if let Some(current) = &self.current {
            let part = Part::of(self.window, current, &None);
            let _free = print_part(text, &self.name, self.free, &part);
        }
    }
}

/// Prints a part, and gives the place from which there is room for a label after it.
fn print_part<W: Write>(text: &mut TextWriter<W>, name: &[u8; 4], free: u64, part: &Part) -> u64
    requires { part.now.start < 2 ^ 40 }
    ensures text { Prints W.contents text.old text.new (part_elements name.now free part.now) }
    ensures free { result ≡ free_after free part.now }
{
    if part.start >= part.end {
        return free;
    }
    print_band(text, name, part);
    let Some(label) = part.look.face().label else {
        return free;
    };
    if free > part.start {
        return free;
    }
    print_text_tag(text, part.class(), part.start, 10);
    text.print(&label);
    text.print(b"</text>\n");
    part.start + 30
}

/// Prints the band of a part, with a title as `CH05 full 0007 lost from 20 to 30`.
fn print_band<W: Write>(text: &mut TextWriter<W>, name: &[u8; 4], part: &Part)
    ensures { Prints W.contents text.old text.new (band_element name.now part.now) }
{
    let width = part.end.saturating_sub(part.start);
    print_rectangle_tag(text, part.class(), part.start, 14, width, 16);
    text.print(b"><title>");
    text.print(name);
    text.print(b" ");
    let face = part.look.face();
    text.print(face.words);
    if let Some(label) = &face.label {
        text.print(label);
    }
    let lost: &[u8] = if part.is_lost { b" lost" } else { b"" };
    text.print(lost);
    text.print(b" from ");
    print_short_decimal(text, part.since);
    text.print(b" to ");
    print_short_decimal(text, part.until);
    text.print(b"</title></rect>\n");
}
