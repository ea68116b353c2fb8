//! Labels, targets, the order of keys and the tables of attributes.
use bz_items::Memory;
use bz_label::bytes::{
    is_label_attribute, is_list_attribute, is_sorted, key_cmp, priority, same, shortened,
    unrepeated,
};
use bz_label::{Label, LabelFault, Target, TargetFault, Which};
use sheets::{Case, CaseFault, Page};
use std::alloc::Global;

/// Answers a question about labels or their like. Whether it is one.
pub(crate) fn answer(case: &Case, page: &mut Page) -> Result<bool, CaseFault> {
    let text = case.given_text(0)?;
    let argument = case.argument.as_slice();
    match case.question.as_str() {
        "label" => show_label(case, page)?,
        "same" => page.answer(sameness(argument, text, case.given_text(1)?))?,
        "shorten" => {
            page.answer(shortened(argument, text))?;
            page.answer(unrepeated(text))?;
        }
        "order" => order_of(case, page)?,
        "target" => show_target(case, page)?,
        "priority" => page.answer(format!(in case.alloc; "{}", priority(text))?.as_bytes())?,
        "sorted" => page.yes_or_no(is_sorted(argument, text))?,
        "labels" => page.yes_or_no(is_label_attribute(text))?,
        "lists" => page.yes_or_no(is_list_attribute(text))?,
        _ => return Ok(false),
    }
    Ok(true)
}

/// Appends a text in double quotes, which no label or target holds, and in front of it what is there to be.
fn push_quoted(line: &mut Vec<u8>, front: &[u8], text: &[u8]) -> Result<(), Memory> {
    line.extend_from_slice(front)?;
    line.extend_from_slice(b"\"")?;
    line.extend_from_slice(text)?;
    line.extend_from_slice(b"\"")?;
    Ok(())
}

/// `Label::read`; a fault is the answer of the case.
fn read_label(alloc: Global, current: &str, text: &str) -> Result<Label, CaseFault> {
    match Label::read(alloc, current, text) {
        Ok(label) => Ok(label),
        Err(LabelFault::Memory) => Err(CaseFault::Memory),
        Err(fault) => Err(CaseFault::Refused(format!(in alloc; "{} {fault}", fault.number())?)),
    }
}

/// Writes the parts of a label.
fn show_label(case: &Case, page: &mut Page) -> Result<(), CaseFault> {
    let label = read_label(case.alloc, case.argument()?, case.text(0)?)?;
    let mut line = Vec::new(case.alloc);
    push_quoted(&mut line, b"", label.repository.as_slice())?;
    push_quoted(&mut line, b" ", label.package.as_slice())?;
    push_quoted(&mut line, b" ", label.name.as_slice())?;
    Ok(page.answer(line.as_slice())?)
}

/// Whether two texts mean the same, compared in both orders.
fn sameness(current: &[u8], first: &[u8], second: &[u8]) -> &'static [u8] {
    match (same(current, first, second), same(current, second, first)) {
        (true, true) => b"same",
        (false, false) => b"different",
        _ => b"same in one order alone",
    }
}

/// Writes the keys that are not ordered as they are given.
fn order_of(case: &Case, page: &mut Page) -> Result<(), CaseFault> {
    let mut is_ordered = true;
    for place in 0..case.texts.len() {
        for later in 0..case.texts.len() {
            let first = case.text(place)?;
            let second = case.text(later)?;
            let order = key_cmp(first.as_bytes(), second.as_bytes());
            if order != place.cmp(&later) {
                is_ordered = false;
                let line = format!(in case.alloc; "{first} {second} {order:?}")?;
                page.answer(line.as_bytes())?;
            }
        }
    }
    if is_ordered {
        page.answer(b"in order")?;
    }
    Ok(())
}

/// `Target::read`; a fault is the answer of the case.
pub(crate) fn read_target(alloc: Global, text: &str) -> Result<Target, CaseFault> {
    match Target::read(alloc, text) {
        Ok(target) => Ok(target),
        Err(TargetFault::Memory) => Err(CaseFault::Memory),
        Err(fault) => Err(CaseFault::Refused(format!(in alloc; "{} {fault}", fault.number())?)),
    }
}

/// Writes the parts of a target.
fn show_target(case: &Case, page: &mut Page) -> Result<(), CaseFault> {
    let target = read_target(case.alloc, case.text(0)?)?;
    let mut line = Vec::new(case.alloc);
    push_quoted(&mut line, b"", target.package.as_slice())?;
    push_which(&mut line, &target.which)?;
    Ok(page.answer(line.as_slice())?)
}

/// Appends which rules are meant.
fn push_which(line: &mut Vec<u8>, which: &Which) -> Result<(), Memory> {
    match which {
        Which::All => Ok(line.extend_from_slice(b" all")?),
        Which::Package => Ok(line.extend_from_slice(b" package")?),
        Which::Line(number) => {
            let text = format!(in *line.allocator(); " line {number}")?;
            Ok(line.extend_from_slice(text.as_bytes())?)
        }
        Which::Kind(kind) => push_quoted(line, b" kind ", kind.as_slice()),
        Which::Name(name) => push_quoted(line, b" name ", name.as_slice()),
    }
}
