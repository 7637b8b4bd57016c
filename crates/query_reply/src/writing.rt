//! Writing one line.

ghost use Rattle.std.specs.Prelude.{◌<◌};
ghost use Rattle.query_reply.specs.Effects.{IsWritten};

use outside_core::{Put, Sink};

/// Writes the line by one call, and answers the status, or 5 where the write failed.
pub fn put<K: Sink>(sink: &mut K, line: &[u8], status: u8) -> u8
    requires { status < 5 }
    ensures { IsWritten K.Sink sink.old sink.new
        (record { status = status; bytes = line.now }) result }
{
    match sink.write(line) {
        Put::All => status,
        Put::Failed(_) => 5,
    }
}
