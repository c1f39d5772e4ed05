//! What commands tell, of plain values.
ghost use Rattle.std.specs.Prelude.{◌≡◌, ◌++◌, ◌∷◌, [], Some, codes};
ghost use Rattle.hex.specs.Hex.{encode_lower};
ghost use Rattle.rv_listing.specs.Sinks.{Told};
ghost use Rattle.rv_listing.specs.Listing.{listing_text};
ghost use Rattle.rv_listing.specs.Pieces.{word_text};
ghost use Rattle.monitor.specs.Texts.{break_text, byte_text, csrs_text, gone_text, line_text};
ghost use Rattle.monitor.specs.Texts.{register_text, registers_text, stop_text, vector_text};

use rv_decode::Reg;
use rv_listing::{Failed, Piece, Sink, put, put_all, put_listing};
use sandbox_run::Registers;

/// Tells an address, in a line that begins so.
fn put_address<S: Sink>(out: &mut S, before: &str, address: u32) -> Result<(), Failed>
    ensures { Told result (S.contents out.old) (S.contents out.new) (S.failures out.old)
        (S.failures out.new) (before.now ++ (word_text address ++ codes "\n")) }
{
    put_all(
        out,
        &[Piece::Text(before), Piece::Word(address), Piece::Text("\n")],
    )
}

/// Tells that a breakpoint is set.
#[tactic(auto, unfolding(crate::specs::Texts::break_text))]
pub(crate) fn put_break<S: Sink>(out: &mut S, address: u32) -> Result<(), Failed>
    ensures { Told result (S.contents out.old) (S.contents out.new)
        (S.failures out.old) (S.failures out.new) (break_text address) }
{
    put_address(out, "break ", address)
}

/// Tells that a breakpoint is gone.
#[tactic(auto, unfolding(crate::specs::Texts::gone_text))]
pub(crate) fn put_gone<S: Sink>(out: &mut S, address: u32) -> Result<(), Failed>
    ensures { Told result (S.contents out.old) (S.contents out.new)
        (S.failures out.old) (S.failures out.new) (gone_text address) }
{
    put_address(out, "gone ", address)
}

/// Tells where a run stands.
#[tactic(auto, unfolding(crate::specs::Texts::stop_text))]
pub(crate) fn put_stop<S: Sink>(out: &mut S, ended: bool, pc: u32, steps: u64) -> Result<(), Failed>
    ensures { Told result (S.contents out.old) (S.contents out.new)
        (S.failures out.old) (S.failures out.new) (stop_text ended pc steps) }
{
    if ended {
        put_all(
            out,
            &[
                Piece::Text("ended step "),
                Piece::Number(steps),
                Piece::Text("\n"),
            ],
        )
    } else {
        put_all(
            out,
            &[
                Piece::Text("at "),
                Piece::Word(pc),
                Piece::Text(" step "),
                Piece::Number(steps),
                Piece::Text("\n"),
            ],
        )
    }
}

/// Tells an integer register.
#[tactic(auto, unfolding(crate::specs::Texts::register_text))]
fn put_register<S: Sink>(out: &mut S, number: usize, value: u32) -> Result<(), Failed>
    ensures { Told result (S.contents out.old) (S.contents out.new)
        (S.failures out.old) (S.failures out.new) (register_text number value) }
{
    let end = if number % 4 == 3 { "\n" } else { " " };
    put_all(
        out,
        &[
            Piece::Text("x"),
            Piece::Number(number as u64 / 10),
            Piece::Number(number as u64 % 10),
            Piece::Text("="),
            Piece::Word(value),
            Piece::Text(end),
        ],
    )
}

/// Tells the integer registers, four in a line.
#[tactic(auto, unfolding(crate::specs::Texts::registers_text))]
pub fn put_registers<S: Sink>(out: &mut S, x: &[u32; 32]) -> Result<(), Failed>
    ensures { Told result (S.contents out.old) (S.contents out.new)
        (S.failures out.old) (S.failures out.new) (registers_text x.now) }
{
    for number in 0..32 {
        put_register(out, number, x[number])?;
    }
    Ok(())
}

/// Tells a byte.
fn put_byte<S: Sink>(out: &mut S, byte: u8) -> Result<(), Failed>
    ensures { Told result (S.contents out.old) (S.contents out.new)
        (S.failures out.old) (S.failures out.new) (encode_lower (byte ∷ [])) }
{
    let mut digits = [0u8; 2];
    match hex::encode_to_slice([byte], &mut digits) {
        Ok(()) => put(out, &digits),
        Err(_) => unreachable!(),
    }
}

/// Tells a byte, where it is there.
#[tactic(auto, unfolding(crate::specs::Texts::byte_text))]
pub(crate) fn put_byte_if<S: Sink>(out: &mut S, byte: Option<u8>) -> Result<(), Failed>
    ensures { Told result (S.contents out.old) (S.contents out.new)
        (S.failures out.old) (S.failures out.new) (byte_text byte) }
{
    match byte {
        Some(byte) => put_byte(out, byte),
        None => put_all(out, &[]),
    }
}

/// Tells bytes.
fn put_bytes<S: Sink>(out: &mut S, bytes: &[u8]) -> Result<(), Failed>
    ensures { Told result (S.contents out.old) (S.contents out.new)
        (S.failures out.old) (S.failures out.new) (encode_lower bytes.now) }
{
    for byte in bytes {
        put_byte(out, *byte)?;
    }
    Ok(())
}

/// Tells bytes and ends the line.
fn put_bytes_line<S: Sink>(out: &mut S, bytes: &[u8]) -> Result<(), Failed>
    ensures { Told result (S.contents out.old) (S.contents out.new)
        (S.failures out.old) (S.failures out.new) (encode_lower bytes.now ++ codes "\n") }
{
    put_bytes(out, bytes)?;
    put_all(out, &[Piece::Text("\n")])
}

/// Tells a vector register, by its number.
#[tactic(auto, unfolding(crate::specs::Texts::vector_text))]
fn put_vector_bytes<S: Sink>(out: &mut S, number: u64, bytes: &[u8]) -> Result<(), Failed>
    ensures { Told result (S.contents out.old) (S.contents out.new)
        (S.failures out.old) (S.failures out.new) (vector_text number bytes.now) }
{
    let label = [
        Piece::Text("v"),
        Piece::Number(number / 10),
        Piece::Number(number % 10),
        Piece::Text("="),
    ];
    put_all(out, &label)?;
    put_bytes_line(out, bytes)
}

/// Tells a vector register.
pub(crate) fn put_vector<S: Sink>(out: &mut S, register: Reg, bytes: &[u8]) -> Result<(), Failed>
    ensures { Told result (S.contents out.old) (S.contents out.new)
        (S.failures out.old) (S.failures out.new) (vector_text register bytes.now) }
{
    put_vector_bytes(out, u64::from(register.number()), bytes)
}

/// Tells a word and what it means, where it is there.
#[tactic(auto, unfolding(crate::specs::Texts::line_text))]
pub(crate) fn put_line<S: Sink>(out: &mut S, address: u32, word: Option<u32>) -> Result<(), Failed>
    ensures { Told result (S.contents out.old) (S.contents out.new)
        (S.failures out.old) (S.failures out.new) (line_text address word) }
{
    match word {
        Some(word) => put_word_line(out, address, word),
        None => put_all(out, &[]),
    }
}

/// Tells a word and what it means.
#[tactic(auto, unfolding(crate::specs::Texts::line_text))]
fn put_word_line<S: Sink>(out: &mut S, address: u32, word: u32) -> Result<(), Failed>
    ensures { Told result (S.contents out.old) (S.contents out.new)
        (S.failures out.old) (S.failures out.new) (line_text address (Some word)) }
{
    let start = [
        Piece::Word(address),
        Piece::Text(" "),
        Piece::Word(word),
        Piece::Text(" "),
    ];
    put_all(out, &start)?;
    put_meaning_line(out, address, word)
}

/// Tells what a word means, and ends the line.
fn put_meaning_line<S: Sink>(out: &mut S, address: u32, word: u32) -> Result<(), Failed>
    ensures { Told result (S.contents out.old) (S.contents out.new)
        (S.failures out.old) (S.failures out.new) (listing_text address word ++ codes "\n") }
{
    put_listing(out, word, address)?;
    put_all(out, &[Piece::Text("\n")])
}

/// Tells pc, and what the vector extension keeps beside its registers.
#[tactic(auto, unfolding(crate::specs::Texts::csrs_text))]
pub fn put_csrs<S: Sink>(out: &mut S, registers: &Registers, vlenb: usize) -> Result<(), Failed>
    ensures { Told result (S.contents out.old) (S.contents out.new)
        (S.failures out.old) (S.failures out.new) (csrs_text registers.now vlenb) }
{
    put_all(
        out,
        &[
            Piece::Text("pc="),
            Piece::Word(registers.pc),
            Piece::Text(" vl="),
            Piece::Number(u64::from(registers.vl)),
            Piece::Text(" vtype="),
            Piece::Word(registers.vtype),
            Piece::Text(" vxrm="),
            Piece::Number(u64::from(registers.vxrm)),
            Piece::Text(" vxsat="),
            Piece::Number(u64::from(registers.vxsat)),
            Piece::Text(" vlenb="),
            Piece::Number(vlenb as u64),
            Piece::Text("\n"),
        ],
    )
}
