//! Bytes that a page has no character for.

use std::alloc::Global;

/// The bytes of a text in which `\n`, `\r`, `\t` and `\xNN` stand for one byte each, and
/// `\(PIECE\)N;` for N times the bytes of PIECE.
pub fn bytes_of(alloc: Global, text: &str) -> anyhow::Result<Vec<u8>> {
    let mut bytes = Vec::new(alloc);
    let mut piece = 0;
    let mut parts = text.split('\\');
    if let Some(first) = parts.next() {
        bytes.extend_from_slice(first.as_bytes())?;
    }
    for part in parts {
        let rest = if let Some(rest) = part.strip_prefix("(") {
            piece = bytes.len();
            rest
        } else if let Some((count, rest)) = count_in(part) {
            repeat(alloc, &mut bytes, piece, count)?;
            rest
        } else if let Some((byte, rest)) = escaped(part) {
            bytes.push(byte)?;
            rest
        } else {
            bytes.push(b'\\')?;
            part
        };
        bytes.extend_from_slice(rest.as_bytes())?;
    }
    Ok(bytes)
}

/// How often a piece is meant that ends here, and what follows.
fn count_in(part: &str) -> Option<(u32, &str)> {
    let (digits, rest) = part.strip_prefix(")")?.split_once(";")?;
    Some((digits.parse::<u32>().ok()?, rest))
}

/// Has the piece from here on stand there `count` times.
fn repeat(alloc: Global, bytes: &mut Vec<u8>, begin: usize, count: u32) -> anyhow::Result<()> {
    let piece = bytes.get(begin..).unwrap_or(&[]).to_vec(alloc)?;
    bytes.truncate(begin);
    for _ in 0..count {
        bytes.extend_from_slice(&piece)?;
    }
    Ok(())
}

/// The byte that is meant after a backslash, and what follows.
fn escaped(part: &str) -> Option<(u8, &str)> {
    if let Some(rest) = part.strip_prefix("n") {
        return Some((b'\n', rest));
    }
    if let Some(rest) = part.strip_prefix("r") {
        return Some((b'\r', rest));
    }
    if let Some(rest) = part.strip_prefix("t") {
        return Some((b'\t', rest));
    }
    let (digits, rest) = part.strip_prefix("x")?.split_at_checked(2)?;
    Some((u8::from_str_radix(digits, 16).ok()?, rest))
}

/// The text that is meant.
pub fn text_of(alloc: Global, text: &str) -> anyhow::Result<String> {
    Ok(String::from_utf8(bytes_of(alloc, text)?)?)
}
