//! Whether a text is well-formed XML of the few elements that a drawing has.

use std::alloc::Global;

/// The elements of a drawing.
const NAMES: [&str; 6] = ["svg", "title", "style", "rect", "g", "text"];

/// Whether a tag may come while these elements are open, which then are those that are open after
/// it.
fn tag_comes<'a>(open: &mut Vec<&'a str>, tag: &'a str) -> bool {
    let name = tag.split(' ').next().unwrap_or("");
    match name.strip_prefix('/') {
        Some(closed) => open.pop() == Some(closed),
        None => NAMES.contains(&name) && (tag.ends_with('/') || open.push(name).is_ok()),
    }
}

/// The same of a tag and the text after it.
fn comes<'a>(open: &mut Vec<&'a str>, piece: &'a str) -> bool {
    match piece.split_once('>') {
        Some((tag, content)) => {
            let is_whole = !content.contains('>') && tag.split('\'').count() % 2 == 1;
            is_whole && tag_comes(open, tag)
        }
        None => false,
    }
}

/// Whether the pieces of a text may come one after another, and no element is open after them.
fn all_come<'a>(open: &mut Vec<&'a str>, text: &'a str) -> bool {
    for piece in text.split('<') {
        if !comes(open, piece) {
            return false;
        }
    }
    open.is_empty()
}

/// Whether all elements are known and closed in order, each quote has its partner, and no character
/// stands for another.
pub(crate) fn is_well_formed(alloc: Global, text: &str) -> bool {
    let mut open = Vec::new(alloc);
    match text.strip_prefix('<') {
        Some(rest) => !text.contains('&') && all_come(&mut open, rest),
        None => false,
    }
}

/// Texts, and whether each is well-formed.
const TEXTS: [(&str, bool); 9] = [
    ("<svg><g x='1'><rect x='0'/></g></svg>\n", true),
    ("<svg><g></svg></g>", false),
    ("<svg>", false),
    ("</svg>", false),
    ("<svg x='></svg>", false),
    ("<svg>&lt;</svg>", false),
    ("<svg>></svg>", false),
    ("<script></script>", false),
    ("text", false),
];

#[test]
fn texts_that_are_not_well_formed(rt: HostRuntime) {
    for &(text, well_formed) in &TEXTS {
        assert!(rt; is_well_formed(rt.alloc(), text) == well_formed, "{text}");
    }
}
