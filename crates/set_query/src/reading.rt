//! Reading texts.

ghost use Rattle.std.specs.Prelude.{◌≡◌, ◌≤◌, IfOk, Err};
ghost use Rattle.set_query.specs.Effects.{ReadFailed, ReadsFront};
ghost use Rattle.set_query.specs.declared.reading.ReadFault.TheVariants.{Failed};

use expr_text::LONGEST;
use outside_core::{Got, Source};
use std::alloc::Global;

/// The most bytes that are read: one more than a text may have.
const ROOM: usize = LONGEST + 1;

/// Why a text wasn't read.
#[derive(Clone, Copy)]
pub(crate) enum ReadFault {
    /// A read failed.
    Failed,
    /// No memory was left.
    Memory,
}

/// Reads to the end of the source, or 65,537 bytes.
pub(crate) fn read_text<S: Source>(alloc: Global, source: &mut S) -> Result<Vec<u8>, ReadFault>
    ensures front { IfOk result
        (λ text. ReadsFront ROOM S.Source source.old source.new text.items) }
    ensures failed { result ≡ Err Failed → ReadFailed S.Source source.old source.new }
    ensures counted { S.faults source.old ≤ S.faults source.new }
{
    let mut text = Vec::new(alloc);
    let mut buf = [0u8; 4096];
    while text.len() < ROOM {
        let room = (ROOM - text.len()).min(4096);
        match source.read(&mut buf[..room]) {
            Got::Bytes(more) => {
                if text.extend_from_slice(&buf[..more]).is_err() {
                    return Err(ReadFault::Memory);
                }
            }
            Got::End => return Ok(text),
            Got::Failed => return Err(ReadFault::Failed),
        }
    }
    Ok(text)
}
