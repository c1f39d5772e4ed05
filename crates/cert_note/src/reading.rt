//! Reading a certificate from its bytes.
ghost use Rattle.std.specs.Prelude.{◌≡◌, ◌≤◌, ◌==◌, ◌&&◌, ◌||◌, ◌++◌, ◌∷◌, [], ℕ, false, not};
ghost use Rattle.std.specs.Prelude.{slice_index_or, is_some, IfOk, IfErr, IfSome, IsSomeAnd};
ghost use Rattle.std.specs.Prelude.{option_map, MatchResult, Ok, Err};
ghost use Rattle.cert_note.specs.Spelling.{spelling};
ghost use Rattle.cert_note.specs.SpellingLaws.{CertificatesAreSpellings};
ghost use Rattle.std.specs.List.{list_all, list_any};
ghost use Rattle.cert_note.specs.Certificate.{CertificateView, IsCertificate, is_equated};
ghost use Rattle.cert_note.specs.Certificate.{has_no_atom, is_greater, is_lesser, are_free};
ghost use Rattle.cert_note.specs.Reading.{Gives, One, none_at, some_at, equality_at, many_at};
ghost use Rattle.cert_note.specs.Reading.{order_at, block_at, certificate_of, AreRead, StopsIn};
ghost use Rattle.cert_note.specs.Reading.{refusal_of, IsRefusal};

use crate::fields;
use crate::fields::{byte_at, expect, word_at};
use crate::refusals::{CertError, CertRefusal, Fault};
use crate::values::{
    Block, Budget, Certificate, Contents, Equality, EqualityTerm, Front, OrderFact, RegisterFact,
    VectorFact, Version,
};
use arrayvec::ArrayVec;
use region_mem::Parameters;
use std::alloc::Allocator;
use vreg_groups::Vlen;

/// What is read, and the bytes behind it.
type Read<'a, T> = Result<(T, &'a [u8]), Fault>;

/// What is listed in a certificate, and is read beside a context: each item from a number on, which the one before it leaves.
trait Item<C>: Default + Drop {
    ghost one: { C → One Self };

    ghost next: { Self → ℕ };

    fn read<'a>(context: &C, from: u16, bytes: &'a [u8]) -> Read<'a, Self>
        ensures { Gives (λ x. (x.0, x.1.now)) result (one context.now from bytes.now) };

    /// The number from which on the item behind this one is read.
    fn next(&self) -> u16
        ensures { result ≡ next self.now };
}

impl Item<Parameters> for EqualityTerm {
    ghost use Rattle.cert_note.specs.Certificate.{after_term};
    ghost use Rattle.cert_note.specs.Reading.{term_at};

    ghost one = { term_at };

    ghost next = { after_term };

    fn read<'a>(parameters: &Parameters, from: u16, bytes: &'a [u8]) -> Read<'a, Self> {
        fields::term_at(parameters, from, bytes)
    }

    fn next(&self) -> u16 {
        u16::from(self.atom) + 1
    }
}

impl Item<Parameters> for RegisterFact {
    ghost use Rattle.cert_note.specs.Certificate.{after_fact};
    ghost use Rattle.cert_note.specs.Reading.{fact_at};

    ghost one = { fact_at };

    ghost next = { after_fact };

    #[tactic(auto, unfolding(crate::specs::Reading::fact_at))]
    fn read<'a>(parameters: &Parameters, from: u16, bytes: &'a [u8]) -> Read<'a, Self> {
        let mut fact = RegisterFact::default();
        let (number, rest) = byte_at(bytes)?;
        expect(from <= number as u16 && number <= 32, CertError::Fact, rest)?;
        fact.number = number;
        let (low, rest) = word_at(rest)?;
        fact.low = low;
        let (high, rest) = word_at(rest)?;
        expect(low <= high, CertError::Fact, rest)?;
        fact.high = high;
        let rest = equality_at(parameters, low, high, rest, &mut fact.equality)?;
        Ok((fact, rest))
    }

    fn next(&self) -> u16 {
        u16::from(self.number) + 1
    }
}

impl Item<Vlen> for VectorFact {
    ghost use Rattle.cert_note.specs.Certificate.{after_vector};
    ghost use Rattle.cert_note.specs.Reading.{vector_at};

    ghost one = { vector_at };

    ghost next = { after_vector };

    fn read<'a>(vlen: &Vlen, from: u16, bytes: &'a [u8]) -> Read<'a, Self> {
        fields::vector_at(*vlen, from, bytes)
    }

    fn next(&self) -> u16 {
        u16::from(self.register) + u16::from(self.registers)
    }
}

impl Item<ArrayVec<RegisterFact, 32>> for OrderFact {
    ghost use Rattle.cert_note.specs.Certificate.{after_order};
    ghost use Rattle.cert_note.specs.Reading.{order_at};

    ghost one = { λ facts. order_at facts.items };

    ghost next = { after_order };

    fn read<'a>(facts: &ArrayVec<RegisterFact, 32>, from: u16, bytes: &'a [u8]) -> Read<'a, Self> {
        order_at(facts.as_slice(), from, bytes)
    }

    fn next(&self) -> u16 {
        u16::from(self.greater) + 1
    }
}

/// Reads a number of items from a place on into `items`, in place of what stood there.
fn many_at<'a, C, T: Item<C>, const MOST: usize>(
    context: &C,
    count: u8,
    first: u16,
    bytes: &'a [u8],
    items: &mut ArrayVec<T, MOST>,
) -> Result<&'a [u8], Fault>
    requires { count ≤ MOST }
    ensures { Gives (λ x. (items.new.items, x.now)) result
        (many_at (T.one context.now) T.next count first bytes.now) }
{
    items.clear();
    let mut from = first;
    let mut rest = bytes;
    for _ in 0..count {
        let (item, after) = T::read(context, from, rest)?;
        from = item.next();
        items.push(item);
        rest = after;
    }
    Ok(rest)
}

/// Reads that there is no equality, which is one only where the interval says something.
#[tactic(auto, unfolding(crate::specs::Reading::none_at))]
fn none_at<'a>(
    low: u32,
    high: u32,
    bytes: &'a [u8],
    equality: &mut Option<Equality>,
) -> Result<&'a [u8], Fault>
    ensures { Gives (λ x. (equality.new, x.now)) result (none_at low high bytes.now) }
{
    expect(!fields::is_full_word(low, high), CertError::Fact, bytes)?;
    *equality = None;
    Ok(bytes)
}

/// Reads an equality, whose count of terms is known.
#[tactic(auto, unfolding(crate::specs::Reading::some_at, crate::specs::Reading::sum_at))]
fn some_at<'a>(
    parameters: &Parameters,
    count: u8,
    bytes: &'a [u8],
    equality: &mut Option<Equality>,
) -> Result<&'a [u8], Fault>
    ensures { Gives (λ x. (equality.new, x.now)) result (some_at parameters.now count bytes.now) }
{
    expect(count <= 8, CertError::Equality, bytes)?;
    let (constant, rest) = word_at(bytes)?;
    let mut terms = ArrayVec::new();
    let rest = many_at(parameters, count, 1, rest, &mut terms)?;
    *equality = Some(Equality { constant, terms });
    Ok(rest)
}

#[tactic(auto, unfolding(crate::specs::Reading::equality_at))]
fn equality_at<'a>(
    parameters: &Parameters,
    low: u32,
    high: u32,
    bytes: &'a [u8],
    equality: &mut Option<Equality>,
) -> Result<&'a [u8], Fault>
    ensures { Gives (λ x. (equality.new, x.now)) result
        (equality_at parameters.now low high bytes.now) }
{
    let (count, rest) = byte_at(bytes)?;
    if count == 255 {
        none_at(low, high, rest, equality)
    } else {
        some_at(parameters, count, rest, equality)
    }
}

#[tactic(auto, unfolding(crate::specs::Certificate::is_equated))]
fn is_equated(facts: &[RegisterFact], number: u8) -> bool
    ensures { result ≡ is_equated facts.now number }
{
    facts
        .iter()
        .any(|fact| fact.number == number && fact.equality.is_some())
}

/// Notes in a table whether the register of a fact has an equality.
fn mark(found: &mut [bool; 256], fact: &RegisterFact)
    ensures { (n : ℕ) → slice_index_or found.new n false
        ≡ (slice_index_or found.old n false
        || ((fact.now.number == n) && is_some fact.now.equality)) }
{
    if fact.equality.is_some() {
        let number = fact.number;
        found[number as usize] = true;
    }
}

/// Of each number, whether the register of that number has a fact with an equality.
fn equated(facts: &[RegisterFact]) -> [bool; 256]
    ensures { (n : ℕ) → slice_index_or result n false ≡ is_equated facts.now n }
{
    let mut found = [false; 256];
    for fact in facts {
        mark(&mut found, fact);
    }
    found
}

fn has_no_atom(found: &[bool; 256], equality: &Option<Equality>) -> bool
    ensures { result ≡ has_no_atom (λ n. slice_index_or found.now n false) equality.now }
{
    match equality {
        None => true,
        Some(equality) => all_outside(found, equality.terms.as_slice()),
    }
}

fn all_outside(found: &[bool; 256], terms: &[EqualityTerm]) -> bool
    ensures { result
        ≡ list_all (λ term. not (slice_index_or found.now term.atom false)) terms.now }
{
    terms.iter().all(|term| !found[term.atom as usize])
}

fn have_no_atom(found: &[bool; 256], facts: &[RegisterFact]) -> bool
    ensures { result ≡ list_all (λ fact. has_no_atom (λ n. slice_index_or found.now n false)
        fact.equality) facts.now }
{
    facts.iter().all(|fact| has_no_atom(found, &fact.equality))
}

/// Whether no atom of an equality is a register that has an equality itself.
fn are_free(facts: &[RegisterFact]) -> bool
    ensures { result ≡ are_free facts.now }
{
    let found = equated(facts);
    have_no_atom(&found, facts)
}

#[tactic(auto, unfolding(crate::specs::Certificate::is_greater))]
fn is_greater(facts: &[RegisterFact], from: u16, greater: u8) -> bool
    ensures { result ≡ is_greater facts.now from greater }
{
    from <= u16::from(greater) && greater <= 32 && !is_equated(facts, greater)
}

#[tactic(auto, unfolding(crate::specs::Certificate::is_lesser))]
fn is_lesser(facts: &[RegisterFact], greater: u8, lesser: u8) -> bool
    ensures { result ≡ is_lesser facts.now greater lesser }
{
    1 <= lesser && lesser <= 32 && lesser != greater && !is_equated(facts, lesser)
}

#[tactic(auto, unfolding(crate::specs::Reading::order_at))]
fn order_at<'a>(
    facts: &[RegisterFact],
    from: u16,
    bytes: &'a [u8],
) -> Result<(OrderFact, &'a [u8]), Fault>
    ensures { Gives (λ x. (x.0, x.1.now)) result (order_at facts.now from bytes.now) }
{
    let (greater, rest) = byte_at(bytes)?;
    expect(is_greater(facts, from, greater), CertError::Order, rest)?;
    let (lesser, rest) = byte_at(rest)?;
    expect(is_lesser(facts, greater, lesser), CertError::Order, rest)?;
    Ok((OrderFact { greater, lesser }, rest))
}

/// Reads a block into `block`, in place of what stood there.
#[tactic(auto, unfolding(crate::specs::Reading::block_at))]
fn block_at<'a>(
    version: Version,
    vlen: Vlen,
    parameters: &Parameters,
    from: u64,
    bytes: &'a [u8],
    block: &mut Block,
) -> Result<&'a [u8], Fault>
    ensures { Gives (λ x. (block.new, x.now)) result
        (block_at version vlen parameters.now from bytes.now) }
{
    let (start, rest) = word_at(bytes)?;
    expect(fields::is_start(from, start), CertError::BlockOrder, rest)?;
    block.start = start;
    let (budget, rest) = fields::budget_at(version, rest)?;
    block.budget = budget;
    let (vtype, rest) = fields::vtype_at(rest)?;
    block.vtype = vtype;
    let (counts, rest) = fields::counts_at(version, rest)?;
    let rest = many_at(parameters, counts.registers, 1, rest, &mut block.registers)?;
    let rest = many_at(&vlen, counts.vectors, 0, rest, &mut block.vectors)?;
    let rest = many_at(&block.registers, counts.orders, 1, rest, &mut block.orders)?;
    expect(
        are_free(block.registers.as_slice()),
        CertError::Equality,
        rest,
    )?;
    Ok(rest)
}

/// A block without facts, into which another can be read.
fn empty_block() -> Block {
    let budget = Budget {
        constant: 0,
        factor: 0,
        register: 0,
        second_factor: 0,
        second_register: 0,
    };
    Block {
        start: 0,
        budget,
        vtype: None,
        registers: ArrayVec::new(),
        vectors: ArrayVec::new(),
        orders: ArrayVec::new(),
    }
}

/// Adds a block to those that are kept. None are kept once an allocation was refused.
fn keep<A: Allocator>(kept: Option<Vec<Block, A>>, block: Block) -> Option<Vec<Block, A>>
    ensures { IfSome result (λ new.
        IsSomeAnd kept (λ old. new.items ≡ old.items ++ block ∷ [])) }
{
    let mut blocks = kept?;
    match blocks.push(block) {
        Ok(()) => Some(blocks),
        Err(_) => None,
    }
}

/// The blocks, and the bytes behind them; or the first fault in them, and the number of its block. Where memory runs out
/// they are read on, and none are kept.
fn blocks_at<'a, A: Allocator>(
    alloc: A,
    front: &Front,
    bytes: &'a [u8],
) -> Result<(Option<Vec<Block, A>>, &'a [u8]), (Fault, u16)>
    ensures read { IfOk result (λ x.
        AreRead front.now bytes.now (option_map (λ blocks. blocks.items) x.0) x.1.now) }
    ensures refused { IfErr result (λ x. StopsIn front.now bytes.now x.0 x.1) }
{
    let mut kept = Vec::with_capacity(alloc, front.count as usize).ok();
    let mut from = 0;
    let mut rest = bytes;
    for number in 0..front.count {
        let mut block = empty_block();
        rest = match block_at(
            front.version,
            front.vlen,
            &front.parameters,
            from,
            rest,
            &mut block,
        ) {
            Ok(after) => after,
            Err(fault) => return Err((fault, number)),
        };
        from = block.start as u64 + 1;
        kept = keep(kept, block);
    }
    Ok((kept, rest))
}

/// Why bytes are no certificate, by the first fault in them and its block.
fn refusal_of(bytes: &[u8], fault: Fault, block: Option<u16>) -> CertRefusal
    ensures { result ≡ refusal_of bytes.now fault block }
{
    CertRefusal {
        error: fault.error,
        block,
        place: Some(bytes.len().saturating_sub(fault.left)),
    }
}

/// The certificate that `bytes` spell, as [`read`] reads it.
///
/// # Errors
/// That of [`read`], with the block and the place of the first fault.
pub fn read_kept<A: Allocator>(alloc: A, bytes: &[u8]) -> Result<Certificate<A>, CertRefusal>
    ensures read { IfOk result (λ c. certificate_of bytes.now ≡ Ok c) }
    ensures refused { IfErr result (IsRefusal bytes.now) }
{
    let (front, rest) = match fields::front_at(bytes) {
        Ok(read) => read,
        Err(fault) => return Err(refusal_of(bytes, fault, None)),
    };
    let (blocks, rest) = match blocks_at(alloc, &front, rest) {
        Ok(read) => read,
        Err((fault, block)) => return Err(refusal_of(bytes, fault, Some(block))),
    };
    if let Err(fault) = fields::nothing_at(rest) {
        return Err(refusal_of(bytes, fault, None));
    }
    match blocks {
        Some(blocks) => Ok(Certificate::new(Contents {
            version: front.version,
            vlen: front.vlen,
            parameters: front.parameters,
            blocks,
        })),
        None => Err(CertRefusal {
            error: CertError::NoMemory,
            block: None,
            place: None,
        }),
    }
}

/// The certificate that `bytes` spell, from the first of them to the last. `alloc` gives the memory of its blocks. The
/// layout of the bytes stands in docs/CERTIFICATES.md; numbers are little-endian.
///
/// # Errors
/// The fields are read in the order of the bytes. The first one that is missing or wrong is the answer: `Short` where
/// the bytes end before or within it, and else the error that is listed here beside it.
///
/// 1. The version, the vector length and a byte of zero: `Version`.
/// 2. Eight parameters: `Parameter`; a buffer's size at the parameter's first number, a scalar's interval at the
///    second.
/// 3. The count of blocks and two bytes of zero: `TooMany`.
/// 4. Block by block:
///    - the start: `BlockOrder`;
///    - the budget: `Budget`, at its register; in version 2 also at its second factor, which stands before the registers,
///      and at its second register;
///    - whether the vector type is known, and the vector type: `Fact`;
///    - the counts of facts on registers and on vector registers, and three bytes of zero: `TooMany`. In version 2 the
///      first two of these are one count of orders;
///    - each fact on a register: `Fact` at its number, at its high, or at the 255 that stands for no equality;
///      `Equality` at the count of its equality's terms, and at each atom and each coefficient;
///    - each fact on vector registers: `Fact`, its interval at its high;
///    - each order: `Order`, at the greater register and at the lesser one;
///    - and once the block's last byte is read, `Equality` where an atom is a register, or vl, that has an equality
///      itself in this block.
/// 5. Bytes behind the last block: `TrailingBytes`.
///
/// `NoMemory` comes only where an allocation was refused and the bytes spell a certificate. They are read once.
pub fn read<A: Allocator>(alloc: A, bytes: &[u8]) -> Result<Certificate<A>, CertError>
    // What is read is a certificate, and is spelled so.
    ensures found { IfOk result (λ c. IsCertificate c × (bytes.now ≡ spelling c)) }
    // What is spelled so is read, unless memory runs out.
    ensures only { (c : CertificateView) → IsCertificate c → bytes.now ≡ spelling c →
        MatchResult result (λ r. r ≡ c) (λ e. e ≡ CertError.NoMemory) }
    // The first fault of the bytes is the answer, whatever the memory.
    ensures refused { IfErr (certificate_of bytes.now) (λ e. result ≡ Err e) }
    // Bytes without fault are read as what they spell, unless memory runs out.
    ensures read { IfOk (certificate_of bytes.now) (λ c.
        MatchResult result (λ r. r ≡ c) (λ e. e ≡ CertError.NoMemory)) }
{
    match read_kept(alloc, bytes) {
        Ok(certificate) => Ok(certificate),
        Err(refusal) => Err(refusal.error),
    }
}

/// A law, which does nothing when it runs: no bytes spell two certificates. (That no certificate has two spellings is
/// clear, since `spelling` is a function, and `read` takes nothing but that.)
pub fn one_spelling()
    ensures { (c d : CertificateView) → IsCertificate c → IsCertificate d
        → spelling c ≡ spelling d → c ≡ d }
{}

/// A law, which does nothing when it runs: bytes have a certificate exactly where they are its spelling.
pub fn certificates_are_spellings()
    ensures { CertificatesAreSpellings }
{}
