//! A page of bytes, in which a long text is gathered before it is put.
ghost use Rattle.std.specs.Prelude.{◌≡◌, ◌+◌, ◌≤◌, [], ◌++◌, length, OnErr};
ghost use Rattle.pm_io.specs.Puts.{Puts, PutsThrough};
ghost use Rattle.pm_io.specs.declared.page.TheConstants.{PAGE_BYTES};

use crate::{Sink, WriteFault, put_all};
use arrayvec::ArrayVec;
use std::marker::Model;

/// How many bytes a page holds: half of what a pipe of Linux has room for, so that its reader is
/// busy with one page while the next is made.
pub const PAGE_BYTES: usize = 32_768;

const _: () = prove!(PAGE_BYTES == 32_768);

/// A page of at most 32,768 bytes on their way to a sink, within the value itself. Contracts see
/// the bytes that it holds. It takes no memory.
#[derive(Drop)]
pub struct Page {
    held: ArrayVec<u8, 32_768>,
}

impl Model for Page {
    ghost use Rattle.std.specs.Prelude.{ℕ, List};

    ghost Value = { List ℕ };

    ghost view = { λ p. p.held.items };
}

impl Page {
    /// The empty page.
    pub fn new() -> Page
        ensures { result ≡ [] }
    {
        Page {
            held: ArrayVec::new(),
        }
    }

    // Holds a piece for which there is room.
    fn hold(&mut self, piece: &[u8])
        requires { length self.old + length piece.now ≤ PAGE_BYTES }
        ensures { self.new ≡ self.old ++ piece.now }
    {
        let _ = self.held.try_extend_from_slice(piece);
    }

    /// Adds a piece to what the page holds. The sink isn't called where the page has room for it;
    /// else it gets whole pages, and the rest is held. After a fault the sink has gained a part of
    /// what was held and the piece, and the page is empty: what wasn't put is lost.
    pub fn add<K: Sink>(&mut self, piece: &[u8], out: &mut K) -> Result<(), WriteFault>
        ensures puts { PutsThrough K.Sink out.old out.new self.old self.new piece.now result }
        ensures quiet { length self.old + length piece.now ≤ PAGE_BYTES → out.new ≡ out.old }
        ensures lost { OnErr result (self.new ≡ []) }
    {
        let room = self.held.remaining_capacity();
        if piece.len() <= room {
            self.hold(piece);
            return Ok(());
        }
        let (front, rest) = piece.split_at(room);
        self.hold(front);
        self.flush(out)?;
        let (pages, last) = rest.split_at(rest.len() - rest.len() % PAGE_BYTES);
        put_all(out, pages)?;
        self.hold(last);
        Ok(())
    }

    /// Puts what the page holds; an empty page makes no call. The page is empty then. After a fault
    /// the sink has gained a part of what was held, and the rest is lost.
    pub fn flush<K: Sink>(&mut self, out: &mut K) -> Result<(), WriteFault>
        ensures puts { Puts K.Sink out.old out.new self.old result }
        ensures empty { self.new ≡ [] }
    {
        let put = put_all(out, self.held.as_slice());
        self.held.clear();
        put
    }
}
