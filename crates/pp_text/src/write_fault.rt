//! Writing all of some bytes.
ghost use Rattle.pp_text.specs.Written.{IsWritten};

use std::io::Write;
use thiserror::Error;

/// The writer failed, or took nothing.
#[derive(Clone, Copy, Debug, Error)]
#[error("write fault")]
pub struct WriteFault;

/// Writes all of these bytes, in as many calls as it takes. An error ends it, and so does a call
/// that takes nothing; no call is retried.
pub(crate) fn write_bytes<W: Write>(writer: &mut W, bytes: &[u8]) -> Result<(), WriteFault>
    ensures { IsWritten bytes.now result (W.contents writer.old) (W.contents writer.new) }
{
    let mut done = 0;
    while done < bytes.len() {
        match writer.write(&bytes[done..]) {
            Ok(0) | Err(_) => return Err(WriteFault),
            Ok(count) => done += count,
        }
    }
    Ok(())
}

/// Writes all of a text so, and flushes the writer.
pub fn write_whole<W: Write>(writer: &mut W, text: &[u8]) -> Result<(), WriteFault>
    ensures { IsWritten text.now result (W.contents writer.old) (W.contents writer.new) }
{
    write_bytes(writer, text)?;
    writer.flush().map_err(|_| WriteFault)
}
