//! A writer that gets a text in pieces.

ghost use Rattle.std.specs.Prelude.{◌≡◌, ◌≤◌, ◌+◌, ◌++◌, ℕ, List, [], length, Option};
ghost use Rattle.pp_text.specs.Piece.{piece_length};
ghost use Rattle.pp_text.specs.TextWriter.{Prints};

use crate::WriteFault;
use crate::write_fault::write_bytes;
use std::io::Write;
use std::marker::Model;

/// The most bytes that a piece holds (decimal).
const PIECE_LENGTH: usize = 8192;

/// The bytes of a text that are held back, to be written at once. Contracts see their list.
#[derive(Drop)]
struct Piece {
    bytes: [u8; PIECE_LENGTH],
    filled: usize,
}

impl Model for Piece {
    ghost use Rattle.std.specs.Prelude.{ℕ, ◌≤◌, List, take};
    ghost use Rattle.pp_text.specs.Piece.{piece_length};

    ghost Value = { List ℕ };

    ghost view = { λ p. take p.filled p.bytes };

    ghost invariant = { λ p. p.filled ≤ piece_length };
}

impl Piece {
    /// Adds these bytes.
    #[inline]
    fn push(&mut self, bytes: &[u8])
        requires { length self.old + length bytes.now ≤ piece_length }
        ensures { self.new ≡ self.old ++ bytes.now }
    {
        let end = self.filled + bytes.len();
        self.bytes[self.filled..end].copy_from_slice(bytes);
        self.filled = end;
    }
}

/// Holds back what is printed until a piece is full, and then writes it. A writer that has failed
/// is not written to again, and what is printed then is lost.
#[derive(Drop)]
pub struct TextWriter<'a, W> {
    writer: &'a mut W,
    piece: Piece,
    failed: bool,
}

impl<'a, W: Write> TextWriter<'a, W> {
    ghost use Rattle.pp_text.specs.TextWriter.{HasPrinted};
    ghost use Rattle.pp_text.specs.Written.{IsWritten};

    /// Prints to this writer. Nothing is printed yet.
    pub fn new(writer: &'a mut W) -> TextWriter<'a, W>
        ensures same_writer { result.writer.ghost_name ≡ writer.entry.ghost_name }
        ensures nothing { HasPrinted W.contents (W.contents writer.old) [] result }
    {
        TextWriter {
            writer,
            piece: Piece {
                bytes: [0; PIECE_LENGTH],
                filled: 0,
            },
            failed: false,
        }
    }

    /// Prints some bytes, no more than a piece holds.
    #[inline]
    pub fn print(&mut self, bytes: &[u8])
        requires { length bytes.now ≤ piece_length }
        ensures { Prints W.contents self.old self.new bytes.now }
    {
        if PIECE_LENGTH - self.piece.filled < bytes.len() {
            self.write_piece();
        }
        self.piece.push(bytes);
    }

    /// Writes what is held back.
    fn write_piece(&mut self)
        ensures nothing_more { Prints W.contents self.old self.new [] }
        ensures empty { self.new.piece ≡ [] }
    {
        if !self.failed {
            self.failed = write_bytes(self.writer, &self.piece.bytes[..self.piece.filled]).is_err();
        }
        self.piece.filled = 0;
    }

    /// Ends the text: writes what is held back, and flushes the writer.
    pub fn finish(&mut self) -> Result<(), WriteFault>
        ensures same_writer { self.new.writer.ghost_name ≡ self.old.writer.ghost_name }
        ensures written { (start : Option (List ℕ)) (text : List ℕ)
            → HasPrinted W.contents start text self.old
            → IsWritten text result start (W.contents self.new.writer.now) }
    {
        self.write_piece();
        if self.failed {
            return Err(WriteFault);
        }
        self.writer.flush().map_err(|_| WriteFault)
    }
}

/// Prints some bytes, however many.
pub fn print_bytes<W: Write>(text: &mut TextWriter<W>, bytes: &[u8])
    ensures { Prints W.contents text.old text.new bytes.now }
{
    let mut rest = bytes;
    while rest.len() > PIECE_LENGTH {
        let (piece, others) = rest.split_at(PIECE_LENGTH);
        text.print(piece);
        rest = others;
    }
    text.print(rest);
}
