//! The loads of a file, which are sorted run by run.
ghost use Rattle.std.specs.Prelude.{◌≡◌};
ghost use Rattle.bz_passes.specs.Passes.{is_run_load, load_path, path_order};
ghost use Rattle.bz_passes.specs.private.Ranks.{path_ranks};

use crate::runs::InRuns;
use bz_grammar::Kind;
use bz_label::bytes::group;
use bz_rule::{between, first_text};
use bz_value::{Expr, Item};
use std::cmp::Ordering;

/// The path of a load: the text between the quote marks of its first item.
fn path_of(item: &Item) -> &[u8]
    ensures { result.now ≡ load_path item.now }
{
    match item {
        Item::Stmt(Expr::Form(form)) => between(first_text(form.seq.items.as_slice())),
        _ => &[],
    }
}

/// Items of a file: loads without comments above are compared, by what their paths begin with, in the reverse order of keys, and then
/// by path.
impl InRuns for Item {
    ghost compares = { is_run_load };

    ghost order = { λ x y. path_order (load_path x) (load_path y) };

    fn is_comparable(&self) -> bool {
        matches!(self, Item::Stmt(Expr::Form(form))
            if form.kind.number() == Kind::Load.number() && form.comments.before().is_empty())
    }

    fn compare(&self, other: &Item) -> Ordering {
        let (path, other) = (path_of(self), path_of(other));
        group(other).cmp(&group(path)).then(path.cmp(other))
    }

    ghost ranks = { path_ranks };
}
