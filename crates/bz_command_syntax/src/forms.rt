//! Identifiers and kinds, and the forms that the words of commands have.
ghost use Rattle.std.specs.Prelude.{◌≡◌, ◌⊎◌, ◌∷◌, [], Some, None, IsUtf8, bytes_eq, position, MatchOption, MatchResult, ◌==◌};
ghost use Rattle.std.specs.List.{list_all, list_any};
ghost use Rattle.bz_command_syntax.specs.Commands as c;
ghost use Rattle.bz_command_syntax.specs.Identifiers.{is_identifier as is_identifier_in, is_rule_kind as is_kind_in};
ghost use Rattle.bz_command_syntax.specs.Words.{is_nonempty};

use crate::command::{
    Attributes, Entries, Entry, Field, Fixes, Host, Repo, RulePlace, Selects, Symbol, Texts,
    Usages, Values,
};
use crate::fault::CommandFault;
use bz_items::{Items, Text};
use bz_token::{Class, token};
use std::alloc::Global;
use std::str;

/// Answers `Arguments` unless the words have this form.
macro_rules! ensure {
    ($has_form:expr) => {
        if !$has_form {
            return Err(CommandFault::Arguments);
        }
    };
}

pub(crate) use ensure;

/// What is read in words. The errors: `Arguments`: they have another form; `Memory`: a growth was refused.
pub(crate) type Read<X> = Result<X, CommandFault>;

/// Whether the text is an identifier: a lexeme of class Name, so no keyword. It takes no memory.
pub fn is_identifier(text: &[u8]) -> bool
    ensures { result ≡ is_identifier_in text.now }
{
    match token(text) {
        Some(found) => match found.class {
            Class::Name => found.len == text.len(),
            _ => false,
        },
        None => false,
    }
}

/// Whether the text is a kind of rules: identifiers joined by dots. It takes no memory.
pub fn is_kind_name(text: &[u8]) -> bool
    ensures { result ≡ is_kind_in text.now }
{
    text.split(|byte| *byte == b'.').all(is_identifier)
}

/// Takes the first word off.
pub(crate) fn take_first(words: &mut Vec<Text>) -> Read<Text>
    ensures { MatchResult result (λ first. words.old.items ≡ first ∷ words.new.items) (λ fault. (words.old.items ≡ []) × (fault ≡ CommandFault.Arguments)) }
{
    if words.is_empty() {
        return Err(CommandFault::Arguments);
    }
    Ok(words.remove(0))
}

/// Whether the word is an identifier.
pub(crate) fn is_attribute(word: &Text) -> bool
    ensures { result ≡ is_identifier_in word.now }
{
    is_identifier(word.as_slice())
}

/// The word as a text.
pub fn as_text(word: &Text) -> &str
    requires { IsUtf8 word.now }
    ensures { result.now ≡ word.now }
{
    let Ok(text) = str::from_utf8(word.as_slice()) else {
        unreachable!()
    };
    text
}

/// Whether the word is this text.
pub(crate) fn is_text(word: &Text, text: &[u8]) -> bool
    ensures { result ≡ bytes_eq word.now text.now }
{
    word.as_slice() == text
}

/// The attributes that the word names: all, or one.
pub(crate) fn attributes_of(word: Text) -> Read<Attributes>
    ensures { MatchResult result (λ attributes. c.attributes_of word ≡ Some attributes) (λ fault. (c.attributes_of word ≡ None) × (fault ≡ CommandFault.Arguments)) }
{
    if is_text(&word, b"*") {
        return Ok(Attributes::All);
    }
    ensure!(is_attribute(&word));
    Ok(Attributes::Named(word))
}

/// Whether there is a word.
pub(crate) fn has_values(words: &[Text]) -> bool
    ensures { result ≡ is_nonempty words.now }
{
    !words.is_empty()
}

/// The attribute and the word after it.
pub(crate) fn attribute_and_word(mut words: Vec<Text>) -> Read<(Text, Text)>
    ensures { MatchResult result (λ parts. c.attribute_word words.items ≡ Some parts) (λ fault. (c.attribute_word words.items ≡ None) × (fault ≡ CommandFault.Arguments)) }
{
    let attribute = take_first(&mut words)?;
    let word = take_first(&mut words)?;
    ensure!(words.is_empty() && is_attribute(&attribute));
    Ok((attribute, word))
}

/// Two attributes.
pub(crate) fn two_attributes(mut words: Vec<Text>) -> Read<(Text, Text)>
    ensures { MatchResult result (λ parts. c.two_attributes words.items ≡ Some parts) (λ fault. (c.two_attributes words.items ≡ None) × (fault ≡ CommandFault.Arguments)) }
{
    let from = take_first(&mut words)?;
    let to = take_first(&mut words)?;
    ensure!(words.is_empty() && is_attribute(&from) && is_attribute(&to));
    Ok((from, to))
}

/// The attribute and its values, one or more.
pub(crate) fn attribute_and_values(mut words: Vec<Text>) -> Read<(Text, Texts)>
    ensures { MatchResult result (λ parts. c.attribute_values words.items ≡ Some parts) (λ fault. (c.attribute_values words.items ≡ None) × (fault ≡ CommandFault.Arguments)) }
{
    let attribute = take_first(&mut words)?;
    ensure!(is_attribute(&attribute) && has_values(&words));
    Ok((attribute, Items::from_vec(words)))
}

/// The attribute, a key, and its values, one or more.
pub(crate) fn attribute_key_values(mut words: Vec<Text>) -> Read<(Text, Text, Texts)>
    ensures { MatchResult result (λ parts. c.key_values words.items ≡ Some parts) (λ fault. (c.key_values words.items ≡ None) × (fault ≡ CommandFault.Arguments)) }
{
    let attribute = take_first(&mut words)?;
    let key = take_first(&mut words)?;
    ensure!(is_attribute(&attribute) && has_values(&words));
    Ok((attribute, key, Items::from_vec(words)))
}

/// The attribute, a key, and the two words after it.
pub(crate) fn attribute_key_words(mut words: Vec<Text>) -> Read<(Text, Text, Text, Text)>
    ensures { MatchResult result (λ parts. c.key_words words.items ≡ Some parts) (λ fault. (c.key_words words.items ≡ None) × (fault ≡ CommandFault.Arguments)) }
{
    let attribute = take_first(&mut words)?;
    let key = take_first(&mut words)?;
    let old = take_first(&mut words)?;
    let new = take_first(&mut words)?;
    ensure!(words.is_empty() && is_attribute(&attribute));
    Ok((attribute, key, old, new))
}

/// Two words.
pub(crate) fn two_words(mut words: Vec<Text>) -> Read<(Text, Text)>
    ensures { MatchResult result (λ parts. c.two_words words.items ≡ Some parts) (λ fault. (c.two_words words.items ≡ None) × (fault ≡ CommandFault.Arguments)) }
{
    let first = take_first(&mut words)?;
    let second = take_first(&mut words)?;
    ensure!(words.is_empty());
    Ok((first, second))
}

/// The attributes and the two words after them.
pub(crate) fn attributes_and_words(mut words: Vec<Text>) -> Read<(Attributes, Text, Text)>
    ensures { MatchResult result (λ parts. c.attributes_words words.items ≡ Some parts) (λ fault. (c.attributes_words words.items ≡ None) × (fault ≡ CommandFault.Arguments)) }
{
    let attribute = take_first(&mut words)?;
    let first = take_first(&mut words)?;
    let second = take_first(&mut words)?;
    ensure!(words.is_empty());
    let attributes = attributes_of(attribute)?;
    Ok((attributes, first, second))
}

/// The kind of a new rule, its name, and where it goes.
pub(crate) fn new_rule(mut words: Vec<Text>) -> Read<(Text, Text, RulePlace)>
    ensures { MatchResult result (λ parts. c.new_rule words.items ≡ Some parts) (λ fault. (c.new_rule words.items ≡ None) × (fault ≡ CommandFault.Arguments)) }
{
    let kind = take_first(&mut words)?;
    let name = take_first(&mut words)?;
    ensure!(is_kind_name(kind.as_slice()));
    let Ok(side) = take_first(&mut words) else {
        return Ok((kind, name, RulePlace::End));
    };
    let rule = take_first(&mut words)?;
    ensure!(words.is_empty());
    if is_text(&side, b"before") {
        return Ok((kind, name, RulePlace::Before(rule)));
    }
    ensure!(is_text(&side, b"after"));
    Ok((kind, name, RulePlace::After(rule)))
}

fn has_star(words: &[Text]) -> bool
    ensures { result ≡ list_any c.is_star words.now }
{
    words.iter().any(|word| is_text(word, b"*"))
}

/// Two attributes, and the values that are moved, one or more.
pub(crate) fn moved_values(mut words: Vec<Text>) -> Read<(Text, Text, Values)>
    ensures { MatchResult result (λ parts. c.moved_values words.items ≡ Some parts) (λ fault. (c.moved_values words.items ≡ None) × (fault ≡ CommandFault.Arguments)) }
{
    let from = take_first(&mut words)?;
    let to = take_first(&mut words)?;
    ensure!(is_attribute(&from) && is_attribute(&to) && has_values(&words));
    if has_star(&words) {
        return Ok((from, to, Values::All));
    }
    Ok((from, to, Values::These(Items::from_vec(words))))
}

/// What carries the comments: the rule, an attribute, or the first item of its lists that is the value.
pub(crate) fn host_of(mut words: Vec<Text>) -> Read<Host>
    ensures { MatchResult result (λ host. c.host_of words.items ≡ Some host) (λ fault. (c.host_of words.items ≡ None) × (fault ≡ CommandFault.Arguments)) }
{
    let Ok(attribute) = take_first(&mut words) else {
        return Ok(Host::Rule);
    };
    ensure!(is_attribute(&attribute));
    let Ok(value) = take_first(&mut words) else {
        return Ok(Host::Attribute(attribute));
    };
    ensure!(words.is_empty());
    Ok(Host::Item {
        attribute,
        value,
        selects: Selects::Skipped,
    })
}

// The fixes and one more, where the word names one that isn't among them.
fn with_fix(word: &Text, mut fixes: Fixes) -> Read<Fixes>
    ensures { MatchResult result (λ more. c.with_fix word.now fixes ≡ Some more) (λ fault. (c.with_fix word.now fixes ≡ None) × (fault ≡ CommandFault.Arguments)) }
{
    if is_text(word, b"movePackageToTop") && !fixes.move_package_to_top {
        fixes.move_package_to_top = true;
        return Ok(fixes);
    }
    ensure!(is_text(word, b"unusedLoads") && !fixes.unused_loads);
    fixes.unused_loads = true;
    Ok(fixes)
}

/// The fixes that the words name, each at most once; where none is named, all are meant.
pub(crate) fn fixes_of(words: Vec<Text>) -> Read<Fixes>
    ensures { MatchResult result (λ fixes. c.fixes_of words.items ≡ Some fixes) (λ fault. (c.fixes_of words.items ≡ None) × (fault ≡ CommandFault.Arguments)) }
{
    let all = words.is_empty();
    let mut fixes = Fixes {
        move_package_to_top: all,
        unused_loads: all,
    };
    for word in &words {
        fixes = with_fix(word, fixes)?;
    }
    Ok(fixes)
}

/// What a word of a command may be.
trait FromWord: Sized {
    ghost use Rattle.std.specs.Prelude.{◌≡◌, ◌⊎◌, List, Option, Some, None, ℕ, MatchResult};

    /// What the word is, where it is something.
    ghost form: { List ℕ → Option Self };

    /// What the word is. The errors: `Arguments`: it is nothing; `Memory`: a growth was refused.
    fn from_word(alloc: Global, word: &[u8]) -> Read<Self>
        ensures { MatchResult result (λ x. form word.now ≡ Some x) (λ fault. ((form word.now ≡ None) × (fault ≡ CommandFault.Arguments)) ⊎ (fault ≡ CommandFault.Memory)) };
}

// What the words are, where all are something.
fn each<X: FromWord + Drop>(alloc: Global, words: &[Text]) -> Read<Items<X>>
    ensures { MatchResult result (λ all. c.each_of X.form words.now ≡ Some all) (λ fault. ((c.each_of X.form words.now ≡ None) × (fault ≡ CommandFault.Arguments)) ⊎ (fault ≡ CommandFault.Memory)) }
{
    let mut all = Vec::with_capacity(alloc, words.len())?;
    for word in words {
        let x = X::from_word(alloc, word.as_slice())?;
        all.reserve(1)?;
        all.push_reserved(x);
    }
    Ok(Items::from_vec(all))
}

/// Where the first such byte is.
fn place(word: &[u8], byte: u8) -> Option<usize>
    ensures { result ≡ position (λ each. each == byte) word.now }
{
    word.iter().position(|each| *each == byte)
}

/// What is before the first such byte, and what is after it.
fn cut(word: &[u8], byte: u8) -> Option<(&[u8], &[u8])>
    ensures { MatchOption result (c.cut_at byte word.now ≡ None) (λ parts. c.cut_at byte word.now ≡ Some (parts.0.now, parts.1.now)) }
{
    match place(word, byte) {
        Some(at) => Some((&word[..at], &word[at + 1..])),
        None => None,
    }
}

impl FromWord for Entry {
    ghost use Rattle.bz_command_syntax.specs.Commands.{entry_of};

    ghost form = { entry_of };

    // The word is cut at its first colon.
    fn from_word(alloc: Global, word: &[u8]) -> Read<Entry> {
        let Some((key, value)) = cut(word, b':') else {
            return Err(CommandFault::Arguments);
        };
        Ok(Entry {
            key: Text::from_slice(alloc, key)?,
            value: Text::from_slice(alloc, value)?,
        })
    }
}

/// The attribute and its entries, one or more.
pub(crate) fn entries_of(mut words: Vec<Text>) -> Read<(Text, Entries)>
    ensures { MatchResult result (λ parts. c.dict_entries words.items ≡ Some parts) (λ fault. ((c.dict_entries words.items ≡ None) × (fault ≡ CommandFault.Arguments)) ⊎ (fault ≡ CommandFault.Memory)) }
{
    let attribute = take_first(&mut words)?;
    ensure!(is_attribute(&attribute) && has_values(&words));
    let entries = each(*words.allocator(), &words)?;
    Ok((attribute, entries))
}

impl FromWord for Symbol {
    ghost use Rattle.bz_command_syntax.specs.Commands.{symbol_of};

    ghost form = { symbol_of };

    // The word is cut at its first equals sign, or is one name for both.
    fn from_word(alloc: Global, word: &[u8]) -> Read<Symbol> {
        let (to, from) = cut(word, b'=').unwrap_or((word, word));
        ensure!(is_identifier(to) && is_identifier(from));
        Ok(Symbol {
            to: Text::from_slice(alloc, to)?,
            from: Text::from_slice(alloc, from)?,
        })
    }
}

/// The path and the symbols that are loaded from it, one or more.
pub(crate) fn path_symbols(mut words: Vec<Text>) -> Read<(Text, Items<Symbol>)>
    ensures { MatchResult result (λ parts. c.path_symbols words.items ≡ Some parts) (λ fault. ((c.path_symbols words.items ≡ None) × (fault ≡ CommandFault.Arguments)) ⊎ (fault ≡ CommandFault.Memory)) }
{
    let path = take_first(&mut words)?;
    ensure!(has_values(&words));
    let symbols = each(*words.allocator(), &words)?;
    Ok((path, symbols))
}

// The entries whose keys and values are the words in turn.
fn pairs_of(alloc: Global, words: &[Text]) -> Read<Entries>
    ensures { MatchResult result (λ entries. c.pairs_of words.now ≡ Some entries) (λ fault. ((c.pairs_of words.now ≡ None) × (fault ≡ CommandFault.Arguments)) ⊎ (fault ≡ CommandFault.Memory)) }
{
    let mut entries = Items::new(alloc);
    let mut left = words;
    while let Some((key, rest)) = left.split_first() {
        let Some((value, rest)) = rest.split_first() else {
            return Err(CommandFault::Arguments);
        };
        let key = Text::from_slice(alloc, key.as_slice())?;
        let value = Text::from_slice(alloc, value.as_slice())?;
        entries.push(Entry { key, value })?;
        left = rest;
    }
    Ok(entries)
}

/// The attribute and its entries, one or more, of which each is two words.
pub(crate) fn attribute_pairs(mut words: Vec<Text>) -> Read<(Text, Entries)>
    ensures { MatchResult result (λ parts. c.attribute_pairs words.items ≡ Some parts) (λ fault. ((c.attribute_pairs words.items ≡ None) × (fault ≡ CommandFault.Arguments)) ⊎ (fault ≡ CommandFault.Memory)) }
{
    let attribute = take_first(&mut words)?;
    ensure!(is_attribute(&attribute) && has_values(&words));
    let entries = pairs_of(*words.allocator(), &words)?;
    Ok((attribute, entries))
}

fn is_repo_byte(byte: &u8) -> bool
    ensures { result ≡ c.is_repo_byte byte.now }
{
    byte.is_ascii_alphanumeric() || b"_-.".contains(byte)
}

fn are_repo_bytes(bytes: &[u8]) -> bool
    ensures { result ≡ list_all c.is_repo_byte bytes.now }
{
    bytes.iter().all(is_repo_byte)
}

fn is_repo_name(word: &[u8]) -> bool
    ensures { result ≡ c.is_repo_name word.now }
{
    match word {
        [first, rest @ ..] => first.is_ascii_alphabetic() && are_repo_bytes(rest),
        [] => false,
    }
}

impl FromWord for Repo {
    ghost use Rattle.bz_command_syntax.specs.Commands.{repo_of};

    ghost form = { repo_of };

    // The word is cut at its first equals sign, or is the name of a repository.
    fn from_word(alloc: Global, word: &[u8]) -> Read<Repo> {
        let Some((name, repo)) = cut(word, b'=') else {
            ensure!(is_repo_name(word));
            return Ok(Repo::Plain(Text::from_slice(alloc, word)?));
        };
        ensure!(is_identifier(name) && is_repo_name(repo));
        Ok(Repo::Named {
            name: Text::from_slice(alloc, name)?,
            repo: Text::from_slice(alloc, repo)?,
        })
    }
}

// The file and the extension at the head of the words, which go.
fn extension_of(dev: bool, words: &mut Vec<Text>) -> Read<Usages>
    ensures { MatchResult result (λ usages. c.extension_of dev words.old.items ≡ Some (usages, words.new.items)) (λ fault. (c.extension_of dev words.old.items ≡ None) × (fault ≡ CommandFault.Arguments)) }
{
    let file = take_first(words)?;
    let name = take_first(words)?;
    ensure!(!is_attribute(&file) && is_attribute(&name));
    Ok(Usages::Extension { dev, file, name })
}

fn begins_with_dev(words: &[Text]) -> bool
    ensures { result ≡ c.begins_with_dev words.now }
{
    matches!(words, [word, _, _, _, ..] if is_text(word, b"dev"))
}

// The usages that the head of the words names, which goes.
fn usages_of(words: &mut Vec<Text>) -> Read<Usages>
    ensures { MatchResult result (λ usages. c.usages_of words.old.items ≡ Some (usages, words.new.items)) (λ fault. (c.usages_of words.old.items ≡ None) × (fault ≡ CommandFault.Arguments)) }
{
    if begins_with_dev(words) {
        drop(take_first(words)?);
        return extension_of(true, words);
    }
    match words.as_slice() {
        [first, ..] if is_attribute(first) => Ok(Usages::Variable(take_first(words)?)),
        _ => extension_of(false, words),
    }
}

/// The usages of an extension, and its repositories, one or more.
pub(crate) fn usages_repos(mut words: Vec<Text>) -> Read<(Usages, Items<Repo>)>
    ensures { MatchResult result (λ parts. c.usages_repos words.items ≡ Some parts) (λ fault. ((c.usages_repos words.items ≡ None) × (fault ≡ CommandFault.Arguments)) ⊎ (fault ≡ CommandFault.Memory)) }
{
    let usages = usages_of(&mut words)?;
    ensure!(has_values(&words));
    let repos = each(*words.allocator(), &words)?;
    Ok((usages, repos))
}

fn is_unknown_field(word: &[u8]) -> bool
    ensures { result ≡ c.is_unknown_field word.now }
{
    word == b"endline".as_slice() || word == b"path".as_slice()
}

impl FromWord for Field {
    ghost use Rattle.bz_command_syntax.specs.Commands.{field_of};

    ghost form = { field_of };

    fn from_word(alloc: Global, word: &[u8]) -> Read<Field> {
        if word == b"kind".as_slice() {
            return Ok(Field::Kind);
        }
        if word == b"startline".as_slice() {
            return Ok(Field::StartLine);
        }
        if word == b"rule".as_slice() {
            return Ok(Field::Rule);
        }
        if word == b"label".as_slice() {
            return Ok(Field::Label);
        }
        ensure!(is_identifier(word) && !is_unknown_field(word));
        Ok(Field::Attribute(Text::from_slice(alloc, word)?))
    }
}

/// The fields that the words name; where there is no word, the name and the kind.
pub(crate) fn fields_of(words: Vec<Text>) -> Read<Items<Field>>
    ensures { MatchResult result (λ fields. c.fields_of words.items ≡ Some fields) (λ fault. ((c.fields_of words.items ≡ None) × (fault ≡ CommandFault.Arguments)) ⊎ (fault ≡ CommandFault.Memory)) }
{
    let alloc = *words.allocator();
    if words.is_empty() {
        let mut fields = Items::new(alloc);
        fields.push(Field::Attribute(Text::from_slice(alloc, b"name")?))?;
        fields.push(Field::Kind)?;
        return Ok(fields);
    }
    each(alloc, &words)
}
