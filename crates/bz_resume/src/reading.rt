ghost use Rattle.std.specs.Prelude.{IfOk, MatchOption};
ghost use Rattle.bz_grammar.specs.Legal.{NoTree, Reads};

use bz_grammar::{ReadFault, Tree};
use bz_items::Memory;
use bz_tree::parse;
use std::alloc::{AllocError, Global};

/// The tree of a text; `None`: it has none. The error: a growth was refused.
pub(crate) fn read(alloc: Global, text: &[u8]) -> Result<Option<Tree>, Memory>
    ensures { IfOk result (λ found. MatchOption found (NoTree text.now) (Reads text.now)) }
{
    match parse(alloc, text) {
        Ok(tree) => Ok(Some(tree)),
        Err(ReadFault::Memory) => Err(AllocError),
        Err(_) => Ok(None),
    }
}
