//! Sorting each unbroken run of comparable items by itself.
ghost use Rattle.std.specs.Prelude.{◌≡◌, ◌&&◌, Bool, true, OnOk};
ghost use Rattle.std.specs.Cmp.{IsStrictWeakOrder};
ghost use Rattle.std.specs.List.{AllByRecursion};
ghost use Rattle.std.specs.Ordering.{is_lt};
ghost use Rattle.std.specs.declared.cmp.Ordering.{Ordering as Answer};
ghost use Rattle.bz_passes.specs.Sorting.{sort_by};

use bz_items::Memory;
use std::alloc::Global;
use std::cmp::Ordering;

/// Items of which some are compared with one another: the unbroken runs of these are sorted.
pub(crate) trait InRuns {
    ghost compares: { Self → Bool };

    ghost order: { Self → Self → Answer };

    /// Whether the item is compared with others; else it ends a run.
    fn is_comparable(&self) -> bool
        ensures { result ≡ compares self.now };

    /// Which of two comparable items comes first.
    fn compare(&self, other: &Self) -> Ordering
        ensures { result ≡ order self.now other.now };

    ghost ranks: { IsStrictWeakOrder (λ (x y : Self). is_lt (order x y)) };
}

/// Whether the item comes before the other one, where both are compared.
pub(crate) fn precedes<T: InRuns>(item: &T, other: &T) -> bool
    ensures { result ≡ (T.compares item.now && T.compares other.now && is_lt (T.order item.now other.now)) }
{
    item.is_comparable() && other.is_comparable() && item.compare(other).is_lt()
}

/// Sorts items that are all compared, equal ones in their old order. The error: a growth was refused.
fn sort_run<T: InRuns>(alloc: Global, run: &mut [T]) -> Result<(), Memory>
    requires { AllByRecursion (λ x. T.compares x ≡ true) run.old }
    ensures { OnOk result (run.new ≡ sort_by (λ x y. T.compares x && T.compares y && is_lt (T.order x y)) run.old) }
{
    run.sort_by(alloc, |x, y| x.compare(y))?;
    Ok(())
}

/// Each unbroken run of comparable items in its order, equal ones in their old order; items that are in order stay. The error: a
/// growth was refused; some of the runs are then in their order.
pub(crate) fn sort_runs<T: InRuns>(alloc: Global, items: &mut [T]) -> Result<(), Memory>
    ensures { OnOk result (items.new ≡ sort_by (λ x y. T.compares x && T.compares y && is_lt (T.order x y)) items.old) }
{
    if items.is_sorted_by(|x, y| !precedes(y, x)) {
        return Ok(());
    }
    let mut from = 0;
    for at in 0..items.len() {
        if items[at].is_comparable() {
            continue;
        }
        sort_run(alloc, &mut items[from..at])?;
        from = at + 1;
    }
    sort_run(alloc, &mut items[from..])
}
