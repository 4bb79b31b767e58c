//! Reading up to a limit or to the end. No error is tried again, except that a reader which is read
//! to its end may be interrupted.

ghost use Rattle.std.specs.Prelude.{◌≤◌, ◌<◌, ℕ, List, length, OnOk, IfOk, IfErr};
ghost use Rattle.std.specs.Io.KnownBytes.{Consumes, IsAtEnd};
ghost use Rattle.pp_sim.specs.TextAnswer.{IsReadFault, most_bytes};

use crate::TextFault;
use std::alloc::Allocator;
use std::io::{ErrorKind, Read};

/// How many bytes are read at most (decimal): one more than a deck may have.
const MOST_BYTES: usize = pp_deck::LONGEST_TEXT + 1;

/// The bytes of a reader, up to its end or the limit.
pub(crate) fn read_front<A: Allocator, R: Read>(
    alloc: A,
    reader: &mut R,
) -> Result<Vec<u8, A>, TextFault>
    ensures read { IfOk result (λ front. Consumes (R.remaining reader.old)
        (R.remaining reader.new) front.items) }
    ensures end { IfOk result (λ front. length front.items < most_bytes
        → IsAtEnd (R.remaining reader.new)) }
    ensures bounded { IfOk result (λ front. length front.items ≤ most_bytes) }
    ensures fault { IfErr result IsReadFault }
    ensures limit { (bytes : List ℕ) × Consumes (R.remaining reader.old)
        (R.remaining reader.new) bytes × (length bytes ≤ most_bytes) }
{
    let mut front = Vec::new(alloc);
    let mut buffer = [0u8; 4096];
    while front.len() < MOST_BYTES {
        let room = (MOST_BYTES - front.len()).min(buffer.len());
        match reader.read(&mut buffer[..room]) {
            Ok(0) => return Ok(front),
            Ok(count) => {
                if front.extend_from_slice(&buffer[..count]).is_err() {
                    return Err(TextFault::Memory);
                }
            }
            Err(_) => return Err(TextFault::Read),
        }
    }
    Ok(front)
}

/// All bytes of a reader.
pub(crate) fn read_all<A: Allocator, R: Read>(
    alloc: A,
    reader: &mut R,
) -> Result<Vec<u8, A>, TextFault>
    ensures read { IfOk result (λ all. Consumes (R.remaining reader.old)
        (R.remaining reader.new) all.items) }
    ensures end { OnOk result (IsAtEnd (R.remaining reader.new)) }
    ensures fault { IfErr result IsReadFault }
    ensures some { (bytes : List ℕ) × Consumes (R.remaining reader.old)
        (R.remaining reader.new) bytes }
{
    let mut all = Vec::new(alloc);
    match reader.read_to_end(&mut all) {
        Ok(_) => Ok(all),
        Err(fault) if fault.kind() == ErrorKind::OutOfMemory => Err(TextFault::Memory),
        Err(_) => Err(TextFault::Read),
    }
}
