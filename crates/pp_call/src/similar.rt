//! Names that are close to a word, by clap's measure.

ghost use Rattle.std.specs.Prelude.{◌≤◌, length};

use crate::text::Text;
use pp_command::{OptionForm, commands};
use std::alloc::Allocator;
use strsim::jaro;

/// Puts a name among those that are close to a word, if it is: behind those that are no closer.
fn add_name<A: Allocator + Copy>(
    text: &mut Text<A>,
    names: &mut Vec<(f64, &'static str), A>,
    word: &str,
    name: &'static str,
) {
    match jaro(text.alloc(), word, name) {
        Ok(closeness) if closeness > 0.7 => {
            let place = place_of(closeness, names);
            if names.insert(place, (closeness, name)).is_err() {
                text.refuse();
            }
        }
        Ok(_) => {}
        Err(_) => text.refuse(),
    }
}

/// The first place of a name that is closer than this; the end, if none is.
fn place_of(closeness: f64, names: &[(f64, &str)]) -> usize
    ensures { result ≤ length names.now }
{
    for (place, other) in names.iter().enumerate() {
        if closeness < other.0 {
            return place;
        }
    }
    names.len()
}

/// Says which commands have names close to a word, the closest last.
pub(crate) fn say_similar_commands<A: Allocator + Copy>(text: &mut Text<A>, word: &str) {
    let mut names = Vec::new(text.alloc());
    for help in &commands() {
        add_name(text, &mut names, word, help.form.name);
    }
    add_name(text, &mut names, word, "help");
    say_similar(text, &names);
}

/// Says that these commands are similar, if there are any.
fn say_similar<A: Allocator + Copy>(text: &mut Text<A>, names: &[(f64, &str)]) {
    let Some((first, others)) = names.split_first() else {
        return;
    };
    if others.is_empty() {
        return text.say_with("\n\n  tip: a similar subcommand exists: '@'", first.1);
    }
    text.say_with("\n\n  tip: some similar subcommands exist: '@'", first.1);
    for other in others {
        text.say_with(", '@'", other.1);
    }
}

/// The name that is closest to a word, of these options and those that ask for something.
pub(crate) fn similar_option<A: Allocator + Copy>(
    text: &mut Text<A>,
    word: &str,
    options: &[OptionForm],
    requests: &[&'static str],
) -> Option<&'static str> {
    let mut closest = (0.0, None);
    for option in options {
        closest = closer(text, word, option.name, closest);
    }
    for name in requests {
        closest = closer(text, word, name, closest);
    }
    closest.1
}

/// This name, and how close it is to a word, if it is close and no farther than the closest so far;
/// else that one.
fn closer<A: Allocator + Copy>(
    text: &mut Text<A>,
    word: &str,
    name: &'static str,
    closest: (f64, Option<&'static str>),
) -> (f64, Option<&'static str>) {
    match jaro(text.alloc(), word, name) {
        Ok(closeness) if closeness > 0.7 && closeness >= closest.0 => (closeness, Some(name)),
        Ok(_) => closest,
        Err(_) => {
            text.refuse();
            closest
        }
    }
}
