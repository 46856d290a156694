//! Putting a whole text.
ghost use Rattle.pm_io.specs.Puts.{Puts};

use crate::{Failed, Sink, WriteFault};

/// Writes the whole piece. An empty piece makes no call. After a fault the sink has gained a part
/// of the piece from its front, and not the whole.
pub fn put_all<K: Sink>(out: &mut K, piece: &[u8]) -> Result<(), WriteFault>
    ensures { Puts K.Sink out.old out.new piece.now result }
{
    let mut at = 0;
    while at < piece.len() {
        match out.put(&piece[at..]) {
            Ok(n) => at += n,
            Err(Failed) => return Err(WriteFault),
        }
    }
    Ok(())
}
