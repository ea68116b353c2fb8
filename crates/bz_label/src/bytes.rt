//! The calls that take no memory, over the bytes of texts.
ghost use Rattle.std.specs.Prelude.{◌≡◌, ◌↔◌, [], ◌∷◌, ◌++◌, codes, ◌&&◌, false, true, get_or, if◌then◌else◌, IsTrue, MatchOption};
ghost use Rattle.std.specs.Str.{bytes_eq};
ghost use Rattle.std.specs.List.{list_any};
ghost use Rattle.std.specs.Ordering.{ordering_then};
ghost use Rattle.std.specs.Cmp.Lexicographic.{slice_cmp};
ghost use Rattle.bz_label.specs.Forms.{label_of, are_whole};
ghost use Rattle.bz_label.specs.Keys.{group_of, is_cut, key_pieces, bytes_order, key_order};
ghost use Rattle.bz_label.specs.Labels.{IsSame, IsShortened, IsUnrepeated};
ghost use Rattle.bz_label.specs.Pieces.{last_piece};
ghost use Rattle.bz_label.specs.Read.{is_equal, is_same, is_own, shortened};
ghost use Rattle.bz_label.specs.Shorter.{after_colon, is_repeated, unrepeated};
ghost use Rattle.bz_label.specs.Tables.{is_in, sorted_attributes, further_lists, first_arguments, last_arguments, is_sorted as is_sorted_in, is_label_attribute as is_label, is_list_attribute as is_list, priority_of};

use crate::form::{cut_slashes, fits};
pub use crate::form::{Parts, label_parts};
use crate::piece::{after_slashes, cut_colon, last};
use std::cmp::Ordering;

fn equal_parts(one: Parts, other: Parts) -> bool
    ensures { result ≡ is_equal (label_of one.entry) (label_of other.entry) }
{
    one.repository == other.repository && one.package == other.package && one.name == other.name
}

#[tactic(auto, using(crate::proofs::LabelFunctions::no_first, crate::proofs::LabelFunctions::no_second, crate::proofs::LabelFunctions::both_there))]
fn are_same(current: &[u8], first: &[u8], second: &[u8]) -> bool
    ensures { result ≡ is_same current.now first.now second.now }
{
    if first == second {
        return true;
    }
    let Some(one) = label_parts(current, first) else {
        return false;
    };
    let Some(other) = label_parts(current, second) else {
        return false;
    };
    equal_parts(one, other)
}

/// Whether two texts mean the same in the current package: both are labels with equal three parts, or the texts are
/// equal.
pub fn same(current: &[u8], first: &[u8], second: &[u8]) -> bool
    ensures meaning { IsTrue result ↔ IsSame current.now first.now second.now }
    ensures function { result ≡ is_same current.now first.now second.now }
{
    are_same(current, first, second)
}

/// Whether the name is the last piece of the package, in a label of both.
fn is_last(repository: &[u8], package: &[u8], name: &[u8]) -> bool
    ensures { result ≡ (are_whole repository.now «package».now name.now && bytes_eq (last_piece «package».now) name.now) }
{
    fits(repository, package, name) && last(package) == name
}

/// Whether a name repeats the last piece of the package before it, which then ends with the name.
#[tactic(auto, using(crate::proofs::Repeats::other_end, crate::proofs::Repeats::repeated_cut, crate::proofs::Repeats::repeated_uncut))]
fn is_repeated(front: &[u8], name: &[u8]) -> bool
    ensures { result ≡ is_repeated front.now name.now }
{
    if !front.ends_with(name) {
        return false;
    }
    match cut_slashes(front) {
        Some((repository, package)) => is_last(repository, package, name),
        None => false,
    }
}

#[tactic(auto, using(crate::proofs::Repeats::colonless_stays, crate::proofs::Repeats::other_stays, crate::proofs::Repeats::repeat_goes))]
fn without_repeat(text: &[u8]) -> &[u8]
    ensures { result.now ≡ unrepeated text.now }
{
    let Some((front, name)) = cut_colon(text) else {
        return text;
    };
    if is_repeated(front, name) {
        front
    } else {
        text
    }
}

/// The text without a name that repeats the last piece of its package: `..//p/x:x` becomes `..//p/x`, and `..//x:x`
/// becomes `..//x`; any other text stays.
pub fn unrepeated(text: &[u8]) -> &[u8]
    ensures meaning { IsUnrepeated text.now result.now }
    ensures function { result.now ≡ unrepeated text.now }
{
    without_repeat(text)
}

/// Whether `//PACKAGE:NAME` is a label in the current package.
fn is_current(current: &[u8], package: &[u8], name: &[u8]) -> bool
    ensures { result ≡ (bytes_eq «package».now current.now && are_whole [] «package».now name.now) }
{
    package == current && fits(&[], package, name)
}

/// `:NAME` at the end of `//PACKAGE:NAME`, where the package is the current one.
#[tactic(auto, using(crate::proofs::LabelFunctions::own_unslashed, crate::proofs::LabelFunctions::own_colonless, crate::proofs::LabelFunctions::own_cut))]
fn own_name<'a>(current: &[u8], text: &'a [u8]) -> Option<&'a [u8]>
    ensures { MatchOption result (is_own current.now text.now ≡ false) (λ name. (is_own current.now text.now ≡ true) × (name.now ≡ codes ":" ++ after_colon text.now)) }
{
    let Some(rest) = after_slashes(text) else {
        return None;
    };
    let Some((package, name)) = cut_colon(rest) else {
        return None;
    };
    if !is_current(current, package, name) {
        return None;
    }
    Some(&rest[package.len()..])
}

fn shorter<'a>(current: &[u8], text: &'a [u8]) -> &'a [u8]
    ensures { result.now ≡ shortened current.now text.now }
{
    match own_name(current, text) {
        Some(name) => name,
        None => without_repeat(text),
    }
}

/// The text as a label is written in the current package `p`: `//p:x` becomes `:x`; any other text is `unrepeated`.
pub fn shortened<'a>(current: &[u8], text: &'a [u8]) -> &'a [u8]
    ensures meaning { IsShortened current.now text.now result.now }
    ensures function { result.now ≡ shortened current.now text.now }
{
    shorter(current, text)
}

/// The group of a key, by what it begins with: `:` is 1, `//` 2, `@` 3, and anything else 0.
pub fn group(text: &[u8]) -> u8
    ensures { result ≡ group_of text.now }
{
    match text {
        [b':', ..] => 1,
        [b'/', b'/', ..] => 2,
        [b'@', ..] => 3,
        _ => 0,
    }
}

fn is_cut(byte: u8) -> bool
    ensures { result ≡ is_cut byte }
{
    byte == b'.' || byte == b':'
}

/// How two bytes at one place order the pieces that they are in.
fn byte_cmp(x: u8, y: u8) -> Ordering
    ensures { result ≡ slice_cmp bytes_order (key_pieces (x ∷ [])) (key_pieces (y ∷ [])) }
{
    match (is_cut(x), is_cut(y)) {
        (true, true) => Ordering::Equal,
        (true, false) => Ordering::Less,
        (false, true) => Ordering::Greater,
        (false, false) => x.cmp(&y),
    }
}

/// How two keys of one group are ordered. Both are walked once: where a dot meets a colon the pieces stay alike, and what these
/// two say counts where nothing after them decides.
#[tactic(auto, using(crate::proofs::KeySteps::walked, crate::proofs::KeySteps::passes, crate::proofs::KeySteps::goes_on, crate::proofs::KeySteps::decides))]
fn walk_cmp(first: &[u8], second: &[u8]) -> Ordering
    ensures { result ≡ ordering_then (slice_cmp bytes_order (key_pieces first.now) (key_pieces second.now)) (bytes_order first.now second.now) }
{
    let mut marks = Ordering::Equal;
    let mut one = first;
    let mut other = second;
    while let [x, following @ ..] = one {
        let [y, others @ ..] = other else {
            return Ordering::Greater;
        };
        if x != y {
            let order = byte_cmp(*x, *y);
            if order.is_ne() {
                return order;
            }
            marks = marks.then(x.cmp(y));
        }
        one = following;
        other = others;
    }
    if other.is_empty() {
        marks
    } else {
        Ordering::Less
    }
}

/// How two keys are ordered in a sorted list: by group (others, then `:`, then `//`, then `@` as first characters),
/// then piece by piece between dots and colons, by bytes, then by the bytes of the whole.
pub fn key_cmp(first: &[u8], second: &[u8]) -> Ordering
    ensures { result ≡ key_order first.now second.now }
{
    group(first)
        .cmp(&group(second))
        .then_with(|| walk_cmp(first, second))
}

fn is_any(attribute: &[u8], names: &[&str]) -> bool
    ensures { result ≡ list_any (λ name. bytes_eq attribute.now name.now) names.now }
{
    names.iter().any(|name| attribute == name.as_bytes())
}

/// The first byte of a text; 0 of an empty one. The tables are looked up by it, since a text is then compared with two names or three.
fn first_of(text: &[u8]) -> u8
    ensures { result ≡ get_or text.now 0 0 }
{
    match text {
        [] => 0,
        [first, ..] => *first,
    }
}

#[tactic(auto, using(crate::proofs::NamesByFirst::sorted_c, crate::proofs::NamesByFirst::sorted_d, crate::proofs::NamesByFirst::sorted_e, crate::proofs::NamesByFirst::sorted_h, crate::proofs::NamesByFirst::sorted_i, crate::proofs::NamesByFirst::sorted_r, crate::proofs::NamesByFirst::sorted_s, crate::proofs::NamesByFirst::sorted_t, crate::proofs::NamesByFirst::sorted_v, crate::proofs::NamesByFirst::sorted_other))]
fn is_sorted_attribute(attribute: &[u8]) -> bool
    ensures { result ≡ is_in sorted_attributes attribute.now }
{
    match first_of(attribute) {
        b'c' => attribute == b"compatible_with".as_slice(),
        b'd' => attribute == b"data".as_slice() || attribute == b"deps".as_slice(),
        b'e' => attribute == b"exports".as_slice(),
        b'h' => attribute == b"hdrs".as_slice(),
        b'i' => attribute == b"implementation_deps".as_slice(),
        b'r' => attribute == b"runtime_deps".as_slice(),
        b's' => attribute == b"srcs".as_slice(),
        b't' => attribute == b"tags".as_slice() || attribute == b"textual_hdrs".as_slice(),
        b'v' => attribute == b"visibility".as_slice(),
        _ => false,
    }
}

/// Whether the lists of this attribute are sorted in a rule of this kind: the sorted attributes are, but not `srcs` of
/// `genrule`.
pub fn is_sorted(kind: &[u8], attribute: &[u8]) -> bool
    ensures { result ≡ is_sorted_in kind.now attribute.now }
{
    is_sorted_attribute(attribute)
        && !(kind == b"genrule".as_slice() && attribute == b"srcs".as_slice())
}

/// Whether the texts in this attribute are labels, in a rule of any kind: the sorted attributes but `tags`.
pub fn is_label_attribute(attribute: &[u8]) -> bool
    ensures { result ≡ is_label attribute.now }
{
    is_sorted_attribute(attribute) && attribute != b"tags".as_slice()
}

/// Whether one value that is set in this attribute becomes a list, in a rule of any kind.
pub fn is_list_attribute(attribute: &[u8]) -> bool
    ensures { result ≡ is_list attribute.now }
{
    let names = [
        "copts", "defines", "features", "includes", "linkopts", "outs",
    ];
    is_sorted_attribute(attribute) || is_any(attribute, &names)
}

/// The place of an argument that has this name, and that of all others.
fn place_if(attribute: &[u8], name: &[u8], place: usize) -> usize
    ensures { result ≡ (if bytes_eq attribute.now name.now then place else 9) }
{
    if attribute == name { place } else { 9 }
}

/// The place of an argument that has one of these names, and that of all others.
fn place_if_either(
    attribute: &[u8],
    one: &[u8],
    place: usize,
    other: &[u8],
    place_of_other: usize,
) -> usize
    ensures { result ≡ (if bytes_eq attribute.now one.now then place else (if bytes_eq attribute.now other.now then place_of_other else 9)) }
{
    if attribute == one {
        return place;
    }
    place_if(attribute, other, place_of_other)
}

/// Where an argument of this name is in a rule: lower numbers come first, and equal ones go by name.
#[tactic(auto, using(crate::proofs::NamesByFirst::place_n, crate::proofs::NamesByFirst::place_size, crate::proofs::NamesByFirst::place_s, crate::proofs::NamesByFirst::place_t, crate::proofs::NamesByFirst::place_o, crate::proofs::NamesByFirst::place_h, crate::proofs::NamesByFirst::place_e, crate::proofs::NamesByFirst::place_r, crate::proofs::NamesByFirst::place_d, crate::proofs::NamesByFirst::place_a, crate::proofs::NamesByFirst::place_other))]
pub fn priority(attribute: &[u8]) -> usize
    ensures { result ≡ priority_of attribute.now }
{
    match first_of(attribute) {
        b'n' => place_if(attribute, b"name", 0),
        b's' => {
            if attribute == b"size".as_slice() {
                return 1;
            }
            place_if_either(attribute, b"src", 4, b"srcs", 5)
        }
        b't' => place_if_either(attribute, b"timeout", 2, b"testonly", 3),
        b'o' => place_if_either(attribute, b"out", 6, b"outs", 7),
        b'h' => place_if(attribute, b"hdrs", 8),
        b'e' => place_if(attribute, b"exports", 10),
        b'r' => place_if(attribute, b"runtime_deps", 11),
        b'd' => place_if(attribute, b"deps", 12),
        b'a' => place_if(attribute, b"alwayslink", 13),
        _ => 9,
    }
}
