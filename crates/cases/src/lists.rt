//! Lists: items that are exchanged for others, and given back.
use bz_items::{Items, Memory};
use sheets::{Case, CaseFault, Page, number_of};
use std::alloc::Global;

/// Writes the list of the bytes of the first text, in which as many as the argument says, from the place that it says on,
/// are exchanged for those of the second; then the bytes that were there, and the list from its last byte on.
pub(crate) fn answer(case: &Case, page: &mut Page) -> Result<(), CaseFault> {
    let Some((place, count)) = case.argument()?.split_once(' ') else {
        return Err(CaseFault::Sheet("no place and count"));
    };
    let mut list = list_of(case.alloc, case.given_text(0)?)?;
    let mut other = list_of(case.alloc, case.given_text(1)?)?;
    if !spliced(&mut list, number_of(place)?, number_of(count)?, &mut other)? {
        return Err(CaseFault::Sheet("a place past the end"));
    }
    page.answer(list.as_slice())?;
    page.answer(other.as_slice())?;
    page.answer(given_back(case.alloc, &mut list)?.as_slice())?;
    Ok(())
}

/// `splice`, where the list has this many items from the place on. Whether it has.
fn spliced(
    list: &mut Items<u8>,
    place: usize,
    count: usize,
    other: &mut Items<u8>,
) -> Result<bool, Memory> {
    let len = list.len();
    if place > len || count > len - place {
        return Ok(false);
    }
    list.splice(place, count, other)?;
    Ok(true)
}

fn list_of(alloc: Global, text: &[u8]) -> Result<Items<u8>, Memory> {
    Ok(Items::from_vec(text.to_vec(alloc)?))
}

/// The items from the last one on, each as it is seen at its place before it is given back.
fn given_back(alloc: Global, list: &mut Items<u8>) -> Result<Vec<u8>, Memory> {
    let mut given = Vec::new(alloc);
    for place in (0..list.len()).rev() {
        let seen = list.get(place).copied();
        match list.pop() {
            Some(item) if seen == Some(item) => given.push(item)?,
            _ => given.extend_from_slice(b" another item ")?,
        }
    }
    Ok(given)
}
