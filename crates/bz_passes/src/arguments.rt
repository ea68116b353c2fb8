//! The arguments of a rule, which are sorted run by run.
ghost use Rattle.std.specs.Prelude.{◌≡◌};
ghost use Rattle.bz_grammar.specs.declared.kind.Kind.TheVariants as kinds;
ghost use Rattle.bz_passes.specs.Passes.{argument_name, argument_order};
ghost use Rattle.bz_passes.specs.private.Ranks.{name_ranks};
ghost use Rattle.bz_rule.specs.Values.{has_kind};

use crate::runs::InRuns;
use bz_grammar::Kind;
use bz_label::bytes::priority;
use bz_rule::first_text;
use bz_value::Expr;
use std::cmp::Ordering;

/// Of a named argument, its name.
fn name_of(x: &Expr) -> &[u8]
    ensures { result.now ≡ argument_name x.now }
{
    match x {
        Expr::Token(_) => &[],
        Expr::Form(form) => first_text(form.parts.as_slice()),
    }
}

/// Expressions as arguments: those with a name are compared, by priority and then by name.
impl InRuns for Expr {
    ghost compares = { has_kind kinds.Named };

    ghost order = { λ x y. argument_order (argument_name x) (argument_name y) };

    fn is_comparable(&self) -> bool {
        matches!(self, Expr::Form(form) if form.kind.number() == Kind::Named.number())
    }

    fn compare(&self, other: &Expr) -> Ordering {
        let (name, other_name) = (name_of(self), name_of(other));
        priority(name)
            .cmp(&priority(other_name))
            .then(name.cmp(other_name))
    }

    ghost ranks = { name_ranks };
}
