//! How certificates are read, written and made. Which bytes spell none is tried by `conformance`, on the rows of `checks.txt`.
use crate::tests::assertions::{assert_same, found, given};
use crate::tests::kernels::bytes_of;
use cert_note::{
    Block, Certificate, Contents, OrderFact, RegisterFact, Version, Vlen, read, write,
};
use region_mem::{Param, Parameters};
use sample_kernels::{Kernel, RAISE, RAISE_IF};
use std::alloc::Global;
use std::process::Abort;

/// What the block of the loop states of registers: the place, the number, the interval, and whether it is equal to a sum.
const LOOP: [(usize, (u8, u32, u32, bool)); 3] = [
    (0, (1, 0xffff_fff0, 0xffff_fff0, false)),
    (1, (10, 0x4000_0000, 0x4000_1000, true)),
    (2, (11, 1, 1024, false)),
];

/// Asserts that a block is that of the loop, with a budget of 1 + 8 * x11, and that x10 is 0x40000000 - 4 * x11 + 4 * n in its
/// second fact, where n is parameter 1.
fn expect_loop(rt: impl Abort + Copy, block: &Block) {
    let budget = block.budget;
    assert_same!(rt; (block.start, block.vtype), (0x1_0004, None));
    assert_same!(rt; (budget.constant, budget.factor, budget.register), (1, 8, 11));
    assert_same!(rt; (budget.second_factor, budget.second_register), (0, 0));
    assert_same!(rt; (block.vectors.len(), block.orders.len()), (0, 0));
    assert_same!(rt; block.registers.len(), LOOP.len());
    for k in 0..LOOP.len() {
        let (place, expected) = LOOP[k];
        let fact = found!(rt; block.registers.as_slice().get(place));
        let came = (fact.number, fact.low, fact.high, fact.equality.is_some());
        assert_same!(rt; came, expected);
    }
    expect_sum(rt, found!(rt; block.registers.as_slice().get(1)));
}

/// The terms of the sum: an atom and its coefficient.
const TERMS: [(u8, u32); 2] = [(11, 0xffff_fffc), (34, 4)];

fn expect_sum(rt: impl Abort + Copy, fact: &RegisterFact) {
    let sum = found!(rt; fact.equality.as_ref());
    assert_same!(rt; (sum.constant, sum.terms.len()), (0x4000_0000, TERMS.len()));
    for k in 0..TERMS.len() {
        let term = found!(rt; sum.terms.as_slice().get(k));
        assert_same!(rt; (term.atom, term.coefficient), TERMS[k]);
    }
}

/// The kernel's certificate, of this version. Asserts that it is written as it was read, and how
/// many blocks it has.
fn read_back(
    rt: impl Abort + Copy,
    alloc: Global,
    kernel: Kernel,
    version: Version,
) -> Certificate {
    let bytes = bytes_of(rt, alloc, kernel.certificate);
    let certificate = given!(rt; read(alloc, &bytes));
    let written = given!(rt; write(alloc, &certificate));
    assert_same!(rt; written.as_slice(), bytes.as_slice());
    let contents = certificate.contents();
    assert_same!(rt; contents.version, version);
    assert_same!(rt; contents.vlen, Vlen::V128);
    assert_same!(rt; contents.blocks.len(), kernel.blocks);
    certificate
}

/// The example, and a certificate of version 2: its block at 0x10010.
#[test]
fn reads_and_writes_certificates(rt: HostRuntime) {
    let certificate = read_back(rt, rt.alloc(), RAISE, Version::V1);
    let block = found!(rt; certificate.contents().blocks.get(1));
    expect_loop(rt, block);
    let certificate = read_back(rt, rt.alloc(), RAISE_IF, Version::V2);
    let block = found!(rt; certificate.contents().blocks.get(2));
    let order = OrderFact {
        greater: 11,
        lesser: 32,
    };
    assert_same!(rt; block.orders.as_slice().first().copied(), Some(order));
    assert_same!(rt; block.budget.second_factor, 0);
}

/// A certificate of no blocks.
#[tactic(auto, unfolding(region_mem::specs::Parameter::parameters_of, region_mem::specs::Parameter::is_valid))]
#[test]
fn writes_what_was_made(rt: HostRuntime) {
    let empty = Certificate::new(Contents {
        version: Version::V1,
        vlen: Vlen::V256,
        parameters: Parameters::new([Param::None; 8]).unwrap(),
        blocks: Vec::new(rt.alloc()),
    });
    let bytes = given!(rt; write(rt.alloc(), &empty));
    assert_same!(rt; bytes.len(), 104);
    assert_same!(rt; bytes.starts_with(&[1, 0, 2, 0]), true);
}
