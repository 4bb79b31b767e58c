//! The text of an instruction.

ghost use Rattle.std.specs.Prelude.{◌≡◌, ◌++◌, codes};
ghost use Rattle.pp_text.specs.InstructionText.{block_text, instruction_text, operands_text, running_text};
ghost use Rattle.pp_text.specs.PrintedText.{padded};
ghost use Rattle.pp_text.specs.TextWriter.{Prints};

use crate::{TextWriter, octal2, octal4};
use pp_machine::{Block, BlockKind};
use pp_word::{Operands, Word6, Word12, decode, relative};
use std::io::Write;

/// Prints the text of the instruction that runs: of the block in progress, `IAM 05`, else of the
/// word at a place, before the next word m.
pub fn print_running<W: Write>(
    text: &mut TextWriter<W>,
    block: Option<Block>,
    place: Word12,
    word: Word12,
    m: Word12,
)
    ensures { Prints W.contents text.old text.new (running_text block place word m) }
{
    text.print(running_field(block, place, word, m).trim_ascii_end());
}

/// The text of the instruction that runs, in 13 columns: `IAM 05       `, of the block in progress;
/// else that of the word at a place, before the next word m: `IAM 0300,05  `.
pub fn running_field(block: Option<Block>, place: Word12, word: Word12, m: Word12) -> [u8; 13]
    ensures { result ≡ padded 13 (running_text block place word m) }
{
    match block {
        Some(block) => block_field(block.kind),
        None => instruction_field(place, word, m),
    }
}

/// `IAM 05       `, of a block in progress.
fn block_field(kind: BlockKind) -> [u8; 13]
    ensures { result ≡ padded 13 (block_text kind) }
{
    match kind {
        BlockKind::Input { channel } => channel_field(*b"IAM", octal2(channel.get())),
        BlockKind::Output { channel } => channel_field(*b"OAM", octal2(channel.get())),
        BlockKind::CentralIn { .. } => *b"CRM          ",
        BlockKind::CentralOut { .. } => *b"CWM          ",
    }
}

/// `IAM 05       `
fn channel_field(name: [u8; 3], channel: [u8; 2]) -> [u8; 13]
    ensures { result ≡ padded 13 (name ++ codes " " ++ channel) }
{
    let [n0, n1, n2] = name;
    let [c0, c1] = channel;
    [
        n0, n1, n2, b' ', c0, c1, b' ', b' ', b' ', b' ', b' ', b' ', b' ',
    ]
}

/// `IAM 0300,05  `: the text of the instruction in a word at a place, before the next word m.
fn instruction_field(place: Word12, word: Word12, m: Word12) -> [u8; 13]
    ensures { result ≡ padded 13 (instruction_text place word m) }
{
    let (operation, d) = decode(word);
    let name = operation.mnemonic().as_bytes();
    let [o0, o1, o2, o3, o4, o5, o6, o7, o8] = operands_field(operation.operands(), place, d, m);
    [
        name[0], name[1], name[2], b' ', o0, o1, o2, o3, o4, o5, o6, o7, o8,
    ]
}

/// `0300,05  `
fn operands_field(operands: Operands, place: Word12, d: Word6, m: Word12) -> [u8; 9]
    ensures { result ≡ padded 9 (operands_text operands place d m) }
{
    let [d0, d1] = octal2(d.get());
    let [m0, m1, m2, m3] = octal4(m.get());
    match operands {
        Operands::IndexedPlace if d.get() == 0 => alone([m0, m1, m2, m3]),
        Operands::IndexedPlace | Operands::PlaceAndNumber => [
            m0, m1, m2, m3, b',', d0, d1, b' ', b' ',
        ],
        Operands::JumpPlace => alone(octal4(relative(place, d).get())),
        Operands::Constant => [d0, d1, m0, m1, m2, m3, b' ', b' ', b' '],
        Operands::Number => [d0, d1, b' ', b' ', b' ', b' ', b' ', b' ', b' '],
    }
}

/// Four characters and five spaces.
fn alone(text: [u8; 4]) -> [u8; 9]
    ensures { result ≡ padded 9 text }
{
    let [t0, t1, t2, t3] = text;
    [t0, t1, t2, t3, b' ', b' ', b' ', b' ', b' ']
}
