//! The forms of labels, read without memory.
ghost use Rattle.std.specs.Prelude.{◌≡◌, ◌++◌, ℕ, List, codes, not, false, MatchOption};
ghost use Rattle.std.specs.Option.{option_map};
ghost use Rattle.bz_label.specs.Pieces.{has_slash};
ghost use Rattle.bz_label.specs.Labels.{is_barred, is_plain, is_path, is_repository_name};
ghost use Rattle.bz_label.specs.Forms.{label_of, is_repository, are_whole, are_alone};
ghost use Rattle.bz_label.specs.Read.{kept_if, absolute_label, other_label, label_in};

use crate::piece::{after, cut, cut_colon, holds, joined, last};

/// The three parts of a label, as slices of the texts that they are in.
#[derive(Clone, Copy)]
pub struct Parts<'a> {
    pub repository: &'a [u8],
    pub package: &'a [u8],
    pub name: &'a [u8],
}

fn barred(byte: u8) -> bool
    ensures { result ≡ is_barred byte }
{
    byte < b' ' || byte == b'"' || byte == b'\'' || byte == b':' || byte == b'\\'
}

fn plain(text: &[u8]) -> bool
    ensures { result ≡ is_plain text.now }
{
    text.iter().all(|byte| !barred(*byte))
}

fn path(text: &[u8]) -> bool
    ensures { result ≡ is_path text.now }
{
    joined(text) && plain(text)
}

#[tactic(auto, using(crate::proofs::Empty::empty_by_length))]
fn repository_name(text: &[u8]) -> bool
    ensures { result ≡ is_repository_name text.now }
{
    !text.is_empty() && !holds(text, b'/') && plain(text)
}

/// Whether the text may be before `//`.
#[tactic(auto, using(crate::proofs::Empty::empty_by_length))]
fn repository(text: &[u8]) -> bool
    ensures { result ≡ is_repository text.now }
{
    match after(text, b'@') {
        Some(name) => name.is_empty() || repository_name(name),
        None => text.is_empty(),
    }
}

/// What is before and after `//`, where these are the first two slashes.
pub(crate) fn cut_slashes(text: &[u8]) -> Option<(&[u8], &[u8])>
    ensures { MatchOption result
        ((front rest : List ℕ) → has_slash front ≡ false → text.now ≡ front ++ codes "//" ++ rest → ⊥)
        (λ parts. (has_slash parts.0.now ≡ false) × (text.now ≡ parts.0.now ++ codes "//" ++ parts.1.now)) }
{
    let (front, rest) = cut(text, b'/')?;
    Some((front, after(rest, b'/')?))
}

#[tactic(auto, using(crate::proofs::Empty::empty_by_length))]
pub(crate) fn fits(front: &[u8], package: &[u8], name: &[u8]) -> bool
    ensures { result ≡ are_whole front.now «package».now name.now }
{
    repository(front) && (package.is_empty() || path(package)) && path(name)
}

fn fits_alone(front: &[u8], package: &[u8]) -> bool
    ensures { result ≡ are_alone front.now «package».now }
{
    repository(front) && path(package)
}

/// The parts, where they may be those of a label.
fn parts_if<'a>(
    good: bool,
    repository: &'a [u8],
    package: &'a [u8],
    name: &'a [u8],
) -> Option<Parts<'a>>
    ensures { option_map label_of result ≡ kept_if good repository.entry.now «package».entry.now name.entry.now }
{
    if !good {
        return None;
    }
    Some(Parts {
        repository,
        package,
        name,
    })
}

/// `[REPOSITORY]//PACKAGE:NAME` or `[REPOSITORY]//PACKAGE`, from what is before and after the slashes.
fn absolute<'a>(front: &'a [u8], rest: &'a [u8]) -> Option<Parts<'a>>
    ensures { option_map label_of result ≡ absolute_label front.now rest.now }
{
    match cut_colon(rest) {
        Some((package, name)) => parts_if(fits(front, package, name), front, package, name),
        None => parts_if(fits_alone(front, rest), front, rest, last(rest)),
    }
}

/// `@REPO`, `:NAME` or `NAME`.
fn other<'a>(current: &'a [u8], text: &'a [u8]) -> Option<Parts<'a>>
    ensures { option_map label_of result ≡ other_label current.now text.now }
{
    match text {
        [] => None,
        [b'@', name @ ..] => parts_if(repository_name(name), text, &[], name),
        [b':', name @ ..] => parts_if(path(name), &[], current, name),
        _ => parts_if(path(text), &[], current, text),
    }
}

/// The three parts of the label that a text is in the current package, as slices of both; none where it is no label.
#[tactic(auto, using(crate::proofs::LabelFunctions::slashes_cut, crate::proofs::LabelFunctions::slashes_uncut))]
pub fn label_parts<'a>(current: &'a [u8], text: &'a [u8]) -> Option<Parts<'a>>
    ensures { option_map label_of result ≡ label_in current.now text.now }
{
    match cut_slashes(text) {
        Some((front, rest)) => absolute(front, rest),
        None => other(current, text),
    }
}
