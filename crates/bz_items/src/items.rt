ghost use Rattle.std.specs.Prelude.{◌≡◌, [], ◌∷◌, ◌++◌, ◌+◌, ◌-◌, ◌<◌, ◌≤◌, length, take, drop, slice_get, ◌↔◌, IsTrue, IsOk, MatchOption, OnOk, OnErr, OnSome};
ghost use Rattle.std.specs.Option.{option_copied};
ghost use Rattle.std.specs.Prelude.{slice_set};
ghost use Rattle.std.specs.Borrow.{sem};
ghost use Rattle.bz_items.specs.Lending.{LendsAll, LendsItem};

use crate::Memory;
use std::alloc::Global;
use std::marker::Model;

/// A `Vec` that contracts see as the list of its elements.
pub struct Items<T> {
    items: Vec<T>,
}

impl<T: Drop> Drop for Items<T> {
    fn drop(self) {
        let Items { items: _ } = self;
    }
}

impl<T> Model for Items<T> {
    ghost use Rattle.std.specs.Prelude.{List};
    ghost use Rattle.std.specs.Coded.{coded_list};

    ghost Value = { List T };

    ghost coded = { coded_list T.code };

    ghost view = { λ it. it.items.items };
}

impl<T> Items<T> {
    /// An empty list, which takes no memory.
    pub fn new(alloc: Global) -> Items<T>
        ensures { result ≡ [] }
    {
        Items {
            items: Vec::new(alloc),
        }
    }

    /// The allocator, for another list.
    pub fn alloc(&self) -> Global {
        *self.items.allocator()
    }

    /// The list of these items, in their order. It takes no memory.
    pub fn from_vec(items: Vec<T>) -> Items<T>
        ensures { result ≡ items.items }
    {
        Items { items }
    }

    /// The items, in their order. It takes no memory.
    pub fn into_vec(self) -> Vec<T>
        ensures { result.items ≡ self }
    {
        let Items { items } = self;
        items
    }

    /// The items, in their order.
    pub fn as_slice(&self) -> &[T]
        ensures { result.now ≡ self.now }
    {
        self.items.as_slice()
    }

    /// How many items there are.
    pub fn len(&self) -> usize
        ensures { result ≡ length self.now }
    {
        self.items.len()
    }

    /// Whether there is no item.
    pub fn is_empty(&self) -> bool
        ensures { IsTrue result ↔ (self.now ≡ []) }
    {
        self.items.is_empty()
    }

    /// The item at a place, from 0; `None` past the last.
    pub fn get(&self, at: usize) -> Option<&T>
        ensures value { option_copied result ≡ slice_get self.now at }
        ensures within { OnSome result (at < length self.now) }
    {
        self.items.get(at)
    }

    /// The item at a place, to change it.
    pub fn at_mut(&mut self, at: usize) -> &mut T
        requires { at < length self.old }
        ensures* writes_back { sem 𝓛 (LendsItem T.row self.entry at result) }
        ensures value { slice_get self.old at ≡ Some result.now }
    {
        &mut self.items[at]
    }

    /// The items, to change them.
    pub fn as_mut_slice(&mut self) -> &mut [T]
        ensures* writes_back { sem 𝓛 (LendsAll T.row self.entry result) }
        ensures value { result.now ≡ self.old }
    {
        self.items.as_mut_slice()
    }

    /// Takes the last item off; `None` of an empty list.
    pub fn pop(&mut self) -> Option<T>
        ensures { MatchOption result ((self.old ≡ []) × (self.new ≡ [])) (λ last. self.old ≡ self.new ++ last ∷ []) }
    {
        self.items.pop()
    }

    /// Exchanges all of `other` with as many items from `at` on.
    fn exchange(&mut self, at: usize, other: &mut Items<T>)
        requires { at + length other.old ≤ length self.old }
        ensures here { self.new ≡ take at self.old ++ other.old ++ drop (at + length other.old) self.old }
        ensures there { other.new ≡ take (length other.old) (drop at self.old) }
    {
        let _whole = self.items.len();
        let count = other.items.len();
        let end = at + count;
        let part = &mut self.items[at..end];
        part.swap_with_slice(other.items.as_mut_slice());
    }
}

impl<T: Drop> Items<T> {
    /// Exchanges all of `other` with one item fewer from `at` on: what comes after these moves once. The error: a growth was refused; both
    /// lists are then as before.
    #[tactic(auto, using(crate::proofs::Spans::put_in, crate::proofs::Spans::put_out))]
    fn splice_one_more(&mut self, at: usize, other: &mut Items<T>) -> Result<(), Memory>
        requires some { 0 < length other.old }
        requires within { at + length other.old ≤ length self.old + 1 }
        ensures here { OnOk result (self.new ≡ take at self.old ++ other.old ++ drop (at + (length other.old - 1)) self.old) }
        ensures there { OnOk result (other.new ≡ take (length other.old - 1) (drop at self.old)) }
        ensures err { OnErr result ((self.new ≡ self.old) × (other.new ≡ other.old)) }
    {
        self.items.reserve(1)?;
        let Some(last) = other.items.pop() else {
            return Ok(());
        };
        let end = at + other.items.len();
        self.items.insert(end, last).unwrap();
        self.exchange(at, other);
        Ok(())
    }

    /// Exchanges all of `other` with `count` items from `at` on. Equal numbers take no memory. The error: a growth was
    /// refused; both lists are then as before.
    #[tactic(auto, using(crate::proofs::Spans::span))]
    pub fn splice(&mut self, at: usize, count: usize, other: &mut Items<T>) -> Result<(), Memory>
        requires { at + count ≤ length self.old }
        ensures here { OnOk result (self.new ≡ take at self.old ++ other.old ++ drop (at + count) self.old) }
        ensures there { OnOk result (other.new ≡ take count (drop at self.old)) }
        ensures err { OnErr result ((self.new ≡ self.old) × (other.new ≡ other.old)) }
        ensures in_place { count ≡ length other.old → IsOk result }
    {
        let _whole = self.items.len();
        let come = other.items.len();
        if come == count {
            self.exchange(at, other);
            return Ok(());
        }
        if come == count + 1 {
            return self.splice_one_more(at, other);
        }
        let end = at + count;
        self.items.reserve(come)?;
        let mut back = self.items.split_off(end)?;
        match self.items.split_off(at) {
            Ok(middle) => {
                let _ = self.items.append(&mut other.items);
                let _ = self.items.append(&mut back);
                other.items = middle;
                Ok(())
            }
            Err(refused) => {
                let _ = self.items.append(&mut back);
                Err(refused)
            }
        }
    }

    /// Appends an item. The error: a growth was refused; the list is then as before.
    pub fn push(&mut self, item: T) -> Result<(), Memory>
        ensures ok { OnOk result (self.new ≡ self.old ++ item ∷ []) }
        ensures err { OnErr result (self.new ≡ self.old) }
    {
        self.items.push(item)?;
        Ok(())
    }
}

/// `items.get(at)`, with its answer as one equation.
pub fn at<T>(items: &[T], at: usize) -> Option<&T>
    ensures { option_copied result ≡ slice_get items.now at }
{
    items.get(at)
}
