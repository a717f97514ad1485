//! A reply for its receipt, and once more for a caller who asks for it.

use std::alloc::{AllocError, Global};
use topo_core::calls::Reply;

/// A reply as its receipt keeps it, and as the caller gets it if it was asked for.
#[derive(Drop)]
pub struct ReplyPair {
    pub receipt: Reply,
    pub answer: Option<Reply>,
}

impl ReplyPair {
    ghost use Rattle.std.specs.Prelude.{◌≡◌, IfOk, IfSome, is_some};

    /// Copies of a reply: one for the receipt, and one more if it is asked for.
    pub fn of(alloc: Global, reply: &Reply, is_asked: bool) -> Result<ReplyPair, AllocError>
        ensures receipt { IfOk result (λ pair. pair.receipt ≡ reply.now) }
        ensures answer { IfOk result (λ pair. is_some pair.answer ≡ is_asked) }
        ensures told { IfOk result (λ pair. IfSome pair.answer (λ r. r ≡ reply.now)) }
    {
        let receipt = reply.copy(alloc)?;
        let answer = if is_asked {
            Some(reply.copy(alloc)?)
        } else {
            None
        };
        Ok(ReplyPair { receipt, answer })
    }
}
