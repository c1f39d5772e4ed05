//! What commands show of a run.
ghost use Rattle.std.specs.Prelude.{◌≡◌, ◌+◌, ◌++◌, codes};
ghost use Rattle.rv_listing.specs.Sinks.{Told};
ghost use Rattle.monitor.specs.Texts.{byte_text, line_text, texts};
ghost use Rattle.monitor.specs.Views.{byte_at, has_bytes, has_words, lines_text, memory_text};
ghost use Rattle.monitor.specs.Views.{word_at};

use crate::texts::{put_byte_if, put_line};
use rv_listing::{Failed, Piece, Sink, put_all};
use sandbox_run::Session;

/// `count` bytes, or words, of a run's memory, from an address on.
#[derive(Clone, Copy)]
pub(crate) struct View<'a, const VLENB: usize> {
    session: &'a Session<VLENB>,
    address: u32,
    count: u32,
}

/// The word at an address, which may be past the last.
#[tactic(auto, unfolding(crate::specs::Views::word_at))]
fn word_from<const VLENB: usize>(session: &Session<VLENB>, address: u64) -> Option<u32>
    ensures { result ≡ word_at session.now.machine.memory address }
{
    if address < 0x1_0000_0000 {
        session.fetch(address as u32)
    } else {
        None
    }
}

/// Tells the word at an address, which may be past the last.
#[tactic(auto, unfolding(crate::specs::Views::word_at, crate::specs::Texts::line_text))]
fn put_line_from<const VLENB: usize, S: Sink>(
    session: &Session<VLENB>,
    out: &mut S,
    address: u64,
) -> Result<(), Failed>
    ensures { Told result (S.contents out.old) (S.contents out.new) (S.failures out.old)
        (S.failures out.new) (line_text address (word_at session.now.machine.memory address)) }
{
    if address < 0x1_0000_0000 {
        put_line(out, address as u32, session.fetch(address as u32))
    } else {
        put_all(out, &[])
    }
}

impl<'a, const VLENB: usize> View<'a, VLENB> {
    /// `count` bytes or words from an address on.
    pub(crate) fn new(session: &'a Session<VLENB>, address: u32, count: u32) -> View<'a, VLENB>
        ensures run { result.session.now ≡ session.now }
        ensures address { result.address ≡ address }
        ensures count { result.count ≡ count }
    {
        View {
            session,
            address,
            count,
        }
    }

    /// The byte that lies `offset` bytes after the first.
    #[tactic(auto, unfolding(crate::specs::Views::byte_at))]
    fn byte_after(&self, offset: u32) -> Option<u8>
        ensures { result ≡ byte_at self.now.session.now.machine.memory (self.now.address + offset) }
    {
        match self.address.checked_add(offset) {
            Some(address) => self.session.peek(address),
            None => None,
        }
    }

    /// Whether all its bytes are there.
    pub(crate) fn has_bytes(&self) -> bool
        ensures { result
            ≡ has_bytes self.now.session.now.machine.memory self.now.address self.now.count }
    {
        for offset in 0..self.count {
            match self.byte_after(offset) {
                Some(_) => {}
                None => return false,
            }
        }
        true
    }

    /// Whether all its words can be fetched.
    pub(crate) fn has_words(&self) -> bool
        ensures { result
            ≡ has_words self.now.session.now.machine.memory self.now.address self.now.count }
    {
        for place in 0..self.count {
            match word_from(self.session, self.address as u64 + 4 * (place as u64)) {
                Some(_) => {}
                None => return false,
            }
        }
        true
    }

    /// Tells the byte that lies `offset` bytes after the first.
    fn put_byte_after<S: Sink>(&self, out: &mut S, offset: u32) -> Result<(), Failed>
        ensures { Told result (S.contents out.old) (S.contents out.new) (S.failures out.old)
            (S.failures out.new)
            (byte_text (byte_at self.now.session.now.machine.memory (self.now.address + offset))) }
    {
        put_byte_if(out, self.byte_after(offset))
    }

    /// Tells its bytes.
    fn put_bytes<S: Sink>(&self, out: &mut S) -> Result<(), Failed>
        ensures { Told result (S.contents out.old) (S.contents out.new) (S.failures out.old)
            (S.failures out.new) (texts (λ i. byte_text
            (byte_at self.now.session.now.machine.memory (self.now.address + i))) self.now.count) }
    {
        for offset in 0..self.count {
            self.put_byte_after(out, offset)?;
        }
        Ok(())
    }

    /// Tells its bytes, and ends the line.
    fn put_bytes_line<S: Sink>(&self, out: &mut S) -> Result<(), Failed>
        ensures { Told result (S.contents out.old) (S.contents out.new) (S.failures out.old)
            (S.failures out.new) (texts (λ i. byte_text
            (byte_at self.now.session.now.machine.memory (self.now.address + i))) self.now.count
            ++ codes "\n") }
    {
        self.put_bytes(out)?;
        put_all(out, &[Piece::Text("\n")])
    }

    /// Tells its address and its bytes.
    pub(crate) fn put_memory<S: Sink>(&self, out: &mut S) -> Result<(), Failed>
        ensures { Told result (S.contents out.old) (S.contents out.new) (S.failures out.old)
            (S.failures out.new)
            (memory_text self.now.session.now.machine.memory self.now.address self.now.count) }
    {
        put_all(out, &[Piece::Word(self.address), Piece::Text("=")])?;
        self.put_bytes_line(out)
    }

    /// Tells its words, a line each.
    pub(crate) fn put_lines<S: Sink>(&self, out: &mut S) -> Result<(), Failed>
        ensures { Told result (S.contents out.old) (S.contents out.new) (S.failures out.old)
            (S.failures out.new)
            (lines_text self.now.session.now.machine.memory self.now.address self.now.count) }
    {
        for place in 0..self.count {
            put_line_from(self.session, out, self.address as u64 + 4 * (place as u64))?;
        }
        Ok(())
    }
}
