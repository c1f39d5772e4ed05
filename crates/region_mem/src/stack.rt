//! The bytes of a stack, which one run leaves for the next.
ghost use Rattle.std.specs.Prelude.{◌≡◌, IfOk};
ghost use Rattle.region_mem.specs.Start.{zeros as zeros_of};

use crate::arguments::Bytes;
use crate::layout::STACK_SIZE;
use std::alloc::{AllocError, Allocator, Global};
use std::marker::Model;

/// The bytes of a stack before its run: all of them are 0.
#[derive(Drop)]
pub struct Stack<A: Allocator = Global> {
    bytes: Bytes<A>,
}

impl<A: Allocator> Model for Stack<A> {
    ghost use Rattle.std.specs.Prelude.{◌≡◌, List, ℕ};
    ghost use Rattle.region_mem.specs.Start.{zeros};
    ghost use Rattle.region_mem.specs.Words.{STACK_SIZE};

    ghost Value = { List ℕ };

    ghost view = { λ s. s.bytes };

    ghost invariant = { λ s. s.bytes ≡ zeros STACK_SIZE };
}

#[tactic(auto, unfolding(crate::specs::Start::zeros))]
fn zeros<A: Allocator>(alloc: A, n: usize) -> Result<Bytes<A>, AllocError>
    ensures { IfOk result (λ bytes. bytes ≡ zeros_of n) }
{
    let bytes = vec![in alloc; 0u8; n]?;
    Ok(Bytes::new(bytes))
}

impl<A: Allocator> Stack<A> {
    ghost use Rattle.region_mem.specs.Start.{zeros as zeros_of};
    ghost use Rattle.region_mem.specs.Words.{STACK_SIZE};

    /// A stack in memory of its own.
    pub fn new(alloc: A) -> Result<Stack<A>, AllocError>
        ensures { IfOk result (λ stack. stack ≡ zeros_of STACK_SIZE) }
    {
        let bytes = zeros(alloc, STACK_SIZE as usize)?;
        Ok(Stack { bytes })
    }

    /// A stack of these bytes, which are all 0.
    pub(crate) fn of(bytes: Bytes<A>) -> Stack<A>
        requires { bytes ≡ zeros_of STACK_SIZE }
        ensures { result ≡ bytes }
    {
        Stack { bytes }
    }

    /// The bytes.
    pub(crate) fn into_bytes(self) -> Bytes<A>
        ensures { result ≡ zeros_of STACK_SIZE }
    {
        let Stack { bytes } = self;
        bytes
    }
}
