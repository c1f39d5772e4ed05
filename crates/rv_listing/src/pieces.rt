//! Texts by their pieces.

ghost use Rattle.rv_listing.specs.Pieces.{piece_text, pieces_text};
ghost use Rattle.rv_listing.specs.Sinks.{Told};

use crate::sink::{Failed, Sink, put};

/// A piece of a text.
#[derive(Clone, Copy)]
pub enum Piece<'a> {
    Text(&'a str),
    /// Eight digits of base 16.
    Word(u32),
    /// Decimal digits.
    Number(u64),
    /// Decimal digits, with a minus sign below 0.
    Signed(i32),
}

/// Writes a piece.
fn put_piece<S: Sink>(out: &mut S, piece: &Piece<'_>) -> Result<(), Failed>
    ensures { Told result (S.contents out.old) (S.contents out.new)
        (S.failures out.old) (S.failures out.new) (piece_text piece.now) }
{
    match piece {
        Piece::Text(text) => put(out, text.as_bytes()),
        Piece::Word(word) => put_word(out, *word),
        Piece::Number(number) => put(out, itoa::Buffer::new().format(*number).as_bytes()),
        Piece::Signed(number) => put(out, itoa::Buffer::new().format(*number).as_bytes()),
    }
}

fn put_word<S: Sink>(out: &mut S, word: u32) -> Result<(), Failed>
    ensures { Told result (S.contents out.old) (S.contents out.new)
        (S.failures out.old) (S.failures out.new) (piece_text (Piece.Word word)) }
{
    let mut digits = [0u8; 8];
    match hex::encode_to_slice(word.to_be_bytes(), &mut digits) {
        Ok(()) => put(out, &digits),
        Err(_) => unreachable!(),
    }
}

/// Writes pieces in turn.
pub fn put_all<S: Sink>(out: &mut S, pieces: &[Piece<'_>]) -> Result<(), Failed>
    ensures { Told result (S.contents out.old) (S.contents out.new)
        (S.failures out.old) (S.failures out.new) (pieces_text pieces.now) }
{
    for piece in pieces {
        put_piece(out, piece)?;
    }
    Ok(())
}
