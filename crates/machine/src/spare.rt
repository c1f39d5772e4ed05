//! What a run leaves for the next one.

use crate::memo::Memo;
use region_mem::Stack;
use std::alloc::{AllocError, Allocator, Global};

/// A stack, and words that were met with what they mean. A run that takes them asks for less memory,
/// clears less of it, and looks up fewer words anew; what it does is that of any other. It may be of
/// another image.
#[derive(Drop)]
pub struct Spare<A: Allocator = Global> {
    pub(crate) stack: Stack<A>,
    pub(crate) memo: Memo<A>,
}

impl<A: Allocator> Spare<A> {
    /// A stack and no words, in memory of their own.
    pub(crate) fn new(alloc: A) -> Result<Spare<A>, AllocError>
    where
        A: Copy,
    {
        let stack = Stack::new(alloc)?;
        let memo = Memo::new(alloc)?;
        Ok(Spare { stack, memo })
    }
}
