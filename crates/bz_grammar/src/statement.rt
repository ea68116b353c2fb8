//! The lines on which the statements of a file begin.
ghost use Rattle.std.specs.Prelude.{◌≡◌, ◌+◌, ◌<◌, ◌^◌, ℕ, [], List, length, count_by, slice_get, option_map, map, IfOk, OnOk, ◌++◌, ◌∷◌};
ghost use Rattle.std.specs.List.{flat_map};
ghost use Rattle.std.specs.Option.{option_copied};
ghost use Rattle.bz_grammar.specs.Spell.{spell_leaf, spell_part, leaves_part};
ghost use Rattle.bz_grammar.specs.Statements.{gap_of, newlines, fronts_part, fronts, line_following, line_of, lines_of};
ghost use Rattle.bz_grammar.specs.private.Seeking.{is_stated, own_front, passed_line, all_passed};

use crate::tree::{Part, Tree};
use bz_items::{Gap, Memory};
use bz_lex::Leaf;
use std::alloc::Global;

impl Tree {
    /// The line, from 1, on which the first token of a statement is. Statements are counted from 0, in the order of
    /// the text: those of a Line, of which it holds several where semicolons are between them, and functions, branches
    /// and loops, each before those of its suites. `None` past the last statement. It takes no memory.
    pub fn line_of(&self, statement: usize) -> Option<u32>
        ensures { result ≡ line_of self.now statement }
    {
        let mut sought = Sought {
            left: statement,
            line: None,
        };
        pass_all(self.root.parts.as_slice(), 1, &mut sought);
        sought.line
    }

    /// The lines of all statements, each as `line_of` gives it, in the order of the text. The text is read once. The error: a
    /// growth was refused.
    pub fn lines(&self, alloc: Global) -> Result<Vec<u32>, Memory>
        ensures { IfOk result (λ lines. lines.items ≡ lines_of self.now) }
    {
        let mut lines = Vec::new(alloc);
        push_all(self.root.parts.as_slice(), 1, &mut lines)?;
        Ok(lines)
    }
}

/// Appends the lines of the statements in parts, the first of which begins on line `first`, and returns the line after
/// them.
#[cycle(lines)]
fn push_all(parts: &[Part], first: u32, lines: &mut Vec<u32>) -> Result<u32, Memory>
    requires { first + length (flat_map spell_part parts.now) < 2 ^ 32 }
    ensures following { IfOk result (λ line. line ≡ first + newlines (flat_map spell_part parts.now)) }
    ensures lines { (front : List ℕ) → line_following front ≡ first → OnOk result (lines.new.items ≡ lines.old.items ++ map line_following (fronts front parts.now)) }
{
    let mut line = first;
    for part in parts {
        line = part.push_lines(line, lines)?;
    }
    Ok(line)
}

/// The statements in parts, the first of which begins on line `first`, are passed; the line after them.
#[cycle(passing)]
fn pass_all(parts: &[Part], first: u32, sought: &mut Sought) -> u32
    requires { first + length (flat_map spell_part parts.now) < 2 ^ 32 }
    ensures following { result ≡ first + newlines (flat_map spell_part parts.now) }
    ensures sought { (front : List ℕ) → line_following front ≡ first → sought.new ≡ all_passed sought.old (map line_following (fronts front parts.now)) }
{
    let mut line = first;
    for part in parts {
        line = part.pass(line, sought);
    }
    line
}

impl Part {
    /// Appends the lines of the statements in a part that begins on line `first`, and returns the line after it.
    #[cycle(lines)]
    fn push_lines(&self, first: u32, lines: &mut Vec<u32>) -> Result<u32, Memory>
        requires { first + length (spell_part self.now) < 2 ^ 32 }
        ensures following { IfOk result (λ line. line ≡ first + newlines (spell_part self.now)) }
        ensures lines { (front : List ℕ) → line_following front ≡ first → OnOk result (lines.new.items ≡ lines.old.items ++ map line_following (fronts_part front self.now)) }
    {
        let Part::Node(node) = self else {
            return Ok(first + self.newlines());
        };
        self.push_own(first, lines)?;
        if node.kind.has_statements() {
            push_all(node.parts.as_slice(), first, lines)
        } else {
            Ok(first + self.newlines())
        }
    }

    /// The statements in a part that begins on line `first` are passed; the line after it.
    #[cycle(passing)]
    fn pass(&self, first: u32, sought: &mut Sought) -> u32
        requires { first + length (spell_part self.now) < 2 ^ 32 }
        ensures following { result ≡ first + newlines (spell_part self.now) }
        ensures sought { (front : List ℕ) → line_following front ≡ first → sought.new ≡ all_passed sought.old (map line_following (fronts_part front self.now)) }
    {
        let Part::Node(node) = self else {
            return first + self.newlines();
        };
        self.pass_own(first, sought);
        if node.kind.has_statements() {
            pass_all(node.parts.as_slice(), first, sought)
        } else {
            first + self.newlines()
        }
    }
}

impl Part {
    fn is_statement(&self) -> bool
        ensures { result ≡ is_stated self.now }
    {
        match self {
            Part::Leaf(_) => false,
            Part::Node(node) => node.kind.is_statement_kind(),
        }
    }

    /// Appends the line of a part that begins on line `first`, if it is a statement itself.
    fn push_own(&self, first: u32, lines: &mut Vec<u32>) -> Result<(), Memory>
        requires { first + length (spell_part self.now) < 2 ^ 32 }
        ensures { (front : List ℕ) → line_following front ≡ first → OnOk result (lines.new.items ≡ lines.old.items ++ map line_following (own_front front self.now)) }
    {
        if self.is_statement() {
            lines.push(first + self.gap_newlines())?;
        }
        Ok(())
    }

    /// A part that begins on line `first` is passed, if it is a statement itself.
    fn pass_own(&self, first: u32, sought: &mut Sought)
        requires { first + length (spell_part self.now) < 2 ^ 32 }
        ensures { (front : List ℕ) → line_following front ≡ first → sought.new ≡ all_passed sought.old (map line_following (own_front front self.now)) }
    {
        if self.is_statement() {
            sought.pass(first + self.gap_newlines());
        }
    }
}

/// A statement that is sought: how many others come before it, and once it is passed its line.
#[derive(Drop)]
struct Sought {
    left: usize,
    line: Option<u32>,
}

impl Sought {
    /// A statement that begins on this line is passed.
    fn pass(&mut self, line: u32)
        ensures { self.new ≡ passed_line self.old line }
    {
        if self.line.is_some() {
            return;
        }
        if self.left == 0 {
            self.line = Some(line);
        } else {
            self.left -= 1;
        }
    }
}

impl Part {
    /// How many newlines are before the first token.
    #[tactic(auto, using(crate::proofs::Statements::gap_is, crate::proofs::Statements::gap_is_none))]
    fn gap_newlines(&self) -> u32
        requires { length (spell_part self.now) < 2 ^ 32 }
        ensures { result ≡ newlines (gap_of self.now) }
    {
        match self.first_leaf() {
            Some(leaf) => newlines_before(&leaf.gap),
            None => 0,
        }
    }

    #[cycle(first)]
    #[tactic(auto, using(crate::proofs::Spells::leaves_Node))]
    fn first_leaf(&self) -> Option<&Leaf>
        ensures { option_copied result ≡ slice_get (leaves_part self.now) 0 }
    {
        match self {
            Part::Leaf(leaf) => Some(leaf),
            Part::Node(node) => first_of(node.parts.as_slice()),
        }
    }

    /// How many newlines are in the part.
    #[cycle(newlines)]
    #[tactic(auto, using(crate::proofs::Spells::spell_Node))]
    fn newlines(&self) -> u32
        requires { length (spell_part self.now) < 2 ^ 32 }
        ensures { result ≡ newlines (spell_part self.now) }
    {
        match self {
            Part::Leaf(leaf) => leaf_newlines(leaf),
            Part::Node(node) => newlines_of(node.parts.as_slice()),
        }
    }
}

/// The first leaf of these parts, in the order of the text; `None` where they have none.
#[cycle(first)]
pub fn first_of(parts: &[Part]) -> Option<&Leaf>
    ensures { option_copied result ≡ slice_get (flat_map leaves_part parts.now) 0 }
{
    for part in parts {
        if let Some(leaf) = part.first_leaf() {
            return Some(leaf);
        }
    }
    None
}

#[cycle(newlines)]
#[tactic(auto, using(crate::proofs::Statements::newlines_fit, crate::proofs::Statements::newlines_append))]
fn newlines_of(parts: &[Part]) -> u32
    requires { length (flat_map spell_part parts.now) < 2 ^ 32 }
    ensures { result ≡ newlines (flat_map spell_part parts.now) }
{
    let mut sum = 0;
    for part in parts {
        sum += part.newlines();
    }
    sum
}

fn leaf_newlines(leaf: &Leaf) -> u32
    requires { length (spell_leaf leaf.now) < 2 ^ 32 }
    ensures { result ≡ newlines (spell_leaf leaf.now) }
{
    newlines_before(&leaf.gap) + newlines_in(leaf.token.as_slice())
}

/// How many newlines are in a gap. Of spaces, or a newline and spaces, the first byte says it.
fn newlines_before(gap: &Gap) -> u32
    requires { length gap.now < 2 ^ 32 }
    ensures { result ≡ newlines gap.now }
{
    let bytes = gap.as_slice();
    if !gap.is_spacing() {
        return newlines_in(bytes);
    }
    match bytes {
        [b'\n', ..] => 1,
        _ => 0,
    }
}

fn newlines_in(text: &[u8]) -> u32
    requires { length text.now < 2 ^ 32 }
    ensures { result ≡ newlines text.now }
{
    text.iter().filter(|byte| **byte == b'\n').count() as u32
}
