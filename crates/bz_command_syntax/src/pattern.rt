//! Patterns of `regex`, and what replacing their matches makes of a text. A contract sees a pattern as its text: what it matches is
//! what `regex`'s grammar reads there.
ghost use Rattle.std.specs.Prelude.{◌≡◌, IfOk, option_map, string_bytes};
ghost use Rattle.regex.specs.Names.{names_of};
ghost use Rattle.bz_command_syntax.specs.Patterns.{is_special as special, has_special as more_than_text};

use crate::fault::CommandFault;
use crate::template;
use bz_items::{Items, Memory, Text};
use regex::{Error, Regex, Template};
use std::alloc::{AllocError, Global};
use std::marker::Model;
use std::str;

/// What a pattern is compiled to.
struct Compiled {
    regex: Regex,
}

impl Drop for Compiled {
    fn drop(self) {
        let Compiled { regex: _ } = self;
    }
}

impl Model for Compiled {
    ghost use Rattle.std.specs.Prelude.{◌≡◌, ℕ, List};
    ghost use Rattle.regex.specs.Strings.{regex_source, regex_config, IsReadFromSource};
    ghost use Rattle.regex.specs.Patterns.{default_config};

    ghost Value = { List ℕ };

    ghost view = { λ pattern. regex_source pattern.regex };

    ghost invariant = { λ pattern. (regex_config pattern.regex ≡ default_config) × IsReadFromSource pattern.regex };
}

// Whether the character is one by which a pattern is more than a text.
#[tactic(auto, unfolding(crate::specs::Patterns::is_special))]
fn is_special(byte: &u8) -> bool
    ensures { result ≡ special byte.now }
{
    b"\\.+*?()|[]{}^$".iter().any(|other| byte == other)
}

// Whether the text has a special character.
fn has_special(source: &str) -> bool
    ensures { result ≡ more_than_text source.now }
{
    source.as_bytes().iter().any(is_special)
}

// The name of a group. The error: a growth was refused.
fn name_of(alloc: Global, name: &Option<String>) -> Result<Option<Text>, Memory>
    ensures { IfOk result (λ text. text ≡ option_map string_bytes name.now) }
{
    match name {
        Some(name) => Ok(Some(Text::from_slice(alloc, name.as_bytes())?)),
        None => Ok(None),
    }
}

// The names of groups. The error: a growth was refused.
fn texts_of(alloc: Global, names: &[Option<String>]) -> Result<Items<Option<Text>>, Memory>
    ensures { IfOk result (λ texts. texts ≡ names_of names.now) }
{
    let mut texts = Items::new(alloc);
    for name in names {
        texts.push(name_of(alloc, name)?)?;
    }
    Ok(texts)
}

impl Compiled {
    ghost use Rattle.std.specs.Prelude.{◌≡◌, ◌⊎◌, IfOk, IfErr, IsUtf8, chars};
    ghost use Rattle.regex_syntax.specs.Grammar.{read};
    ghost use Rattle.regex.specs.Patterns.{default_config};
    ghost use Rattle.bz_command_syntax.specs.Patterns.{HasNames, IsRefusedPattern, substituted, substituted_by};

    /// Compiles a text. Errors: as of `Pattern::read`.
    #[tactic(auto, unfolding(crate::specs::Patterns::IsRefusedPattern))]
    fn read(alloc: Global, source: &str) -> Result<Compiled, CommandFault>
        ensures ok { IfOk result (λ compiled. compiled ≡ source.now) }
        ensures err { IfErr result (λ fault. ((fault ≡ CommandFault.BadPattern) × IsRefusedPattern source.now) ⊎ (fault ≡ CommandFault.Memory)) }
    {
        match Regex::new(alloc, source) {
            Ok(regex) => Ok(Compiled { regex }),
            Err(error) => {
                // A text without special characters is a pattern: it can only want memory.
                if !has_special(source) {
                    return Err(CommandFault::Memory);
                }
                match error {
                    Error::OutOfMemory => Err(CommandFault::Memory),
                    _ => Err(CommandFault::BadPattern),
                }
            }
        }
    }

    /// The names of the groups, from that of the whole match on. The error: a growth was refused.
    fn names(&self, alloc: Global) -> Result<Items<Option<Text>>, Memory>
        ensures { IfOk result (HasNames self.now) }
    {
        let names = texts_of(alloc, self.regex.capture_names())?;
        Ok(names)
    }

    /// The body with each match replaced; bytes that are not UTF-8 have no match. The error: a growth was refused.
    #[tactic(auto, using(crate::proofs::PlainTexts::without_template, crate::proofs::PlainTexts::without_body, crate::proofs::PlainTexts::with_texts))]
    fn substituted(&self, alloc: Global, template: &[u8], body: &[u8]) -> Result<Text, Memory>
        ensures ok { IfOk result (λ text. text ≡ substituted self.now template.now body.now) }
        ensures of_texts { IsUtf8 template.now → IsUtf8 body.now → IfOk result (λ text. text ≡ substituted_by (read default_config (chars self.now)) template.now body.now) }
    {
        let Ok(template) = str::from_utf8(template) else {
            return Text::from_slice(alloc, body);
        };
        match str::from_utf8(body) {
            Ok(body) => self.replaced(alloc, template, body),
            Err(_) => Text::from_slice(alloc, body),
        }
    }

    /// The substitution of texts.
    fn replaced(&self, alloc: Global, template: &str, body: &str) -> Result<Text, Memory>
        ensures ok { IfOk result (λ text. text ≡ substituted_by (read default_config (chars self.now)) template.now body.now) }
        ensures utf8 { IfOk result IsUtf8 }
    {
        let template = Template::new(alloc, self.regex.capture_names(), template)?;
        let mut matcher = self.regex.matcher(alloc)?;
        let text = matcher.replace_all(alloc, body, &template)?;
        Ok(Text::from_vec(text.into_bytes()))
    }
}

/// A pattern that compiles, and the names of its groups. What it was compiled to is kept for all its uses, or it is compiled for each.
pub struct Pattern {
    source: String,
    names: Items<Option<Text>>,
    /// What it was compiled to, where that is kept.
    compiled: Option<Compiled>,
}

impl Drop for Pattern {
    fn drop(self) {
        let Pattern {
            source: _,
            names: _,
            compiled: _,
        } = self;
    }
}

impl Model for Pattern {
    ghost use Rattle.std.specs.Prelude.{◌≡◌, ℕ, List, IfSome, string_bytes};
    ghost use Rattle.bz_command_syntax.specs.Patterns.{HasNames};

    ghost Value = { List ℕ };

    ghost view = { λ pattern. string_bytes pattern.source };

    ghost invariant = { λ pattern. HasNames (string_bytes pattern.source) pattern.names × IfSome pattern.compiled (λ compiled. compiled ≡ string_bytes pattern.source) };
}

impl Pattern {
    ghost use Rattle.std.specs.Prelude.{◌≡◌, ◌⊎◌, IfOk, IfErr, IfSome, IsUtf8, chars, option_map};
    ghost use Rattle.regex_syntax.specs.Grammar.{read};
    ghost use Rattle.regex.specs.Patterns.{default_config};
    ghost use Rattle.bz_command_syntax.specs.Patterns.{IsRefusedPattern, missing_group, substituted, substituted_by};

    /// Compiles a pattern, with `regex`'s default options. Errors: `BadPattern` where `regex` refuses a text with a special
    /// character for another cause than memory: it is no pattern, is nested deeper than 250, or its tables would take more than 10 MiB;
    /// `Memory`: a growth was refused.
    pub fn read(alloc: Global, source: &str) -> Result<Pattern, CommandFault>
        ensures ok { IfOk result (λ pattern. pattern ≡ source.now) }
        ensures err { IfErr result (λ fault. ((fault ≡ CommandFault.BadPattern) × IsRefusedPattern source.now) ⊎ (fault ≡ CommandFault.Memory)) }
    {
        let compiled = Compiled::read(alloc, source)?;
        let names = compiled.names(alloc)?;
        let source = String::from_str(alloc, source)?;
        Ok(Pattern {
            source,
            names,
            compiled: Some(compiled),
        })
    }

    /// Drops what the pattern was compiled to: it is compiled anew when it is used.
    pub(crate) fn release(&mut self)
        ensures { self.new ≡ self.old }
    {
        self.compiled = None;
    }

    /// An equal pattern that is compiled, once for all its uses; none where this one is. The error: a growth was refused.
    pub(crate) fn prepared(&self, alloc: Global) -> Result<Option<Pattern>, Memory>
        ensures { IfOk result (λ made. IfSome made (λ pattern. pattern ≡ self.now)) }
    {
        if self.compiled.is_some() {
            return Ok(None);
        }
        let compiled = self.compile(alloc)?;
        let names = compiled.names(alloc)?;
        let source = String::from_str(alloc, self.source.as_str())?;
        Ok(Some(Pattern {
            source,
            names,
            compiled: Some(compiled),
        }))
    }

    fn compile(&self, alloc: Global) -> Result<Compiled, Memory>
        ensures { IfOk result (λ compiled. compiled ≡ self.now) }
    {
        match Compiled::read(alloc, self.source.as_str()) {
            Ok(compiled) => Ok(compiled),
            // It compiled when it was read: it can only want memory.
            Err(_) => Err(AllocError),
        }
    }

    /// The body with each match replaced as `regex` replaces all by the template; bytes that are not UTF-8 have no match. The
    /// error: a growth was refused.
    pub fn substituted(&self, alloc: Global, template: &[u8], body: &[u8]) -> Result<Text, Memory>
        ensures ok { IfOk result (λ text. text ≡ substituted self.now template.now body.now) }
        ensures of_texts { IsUtf8 template.now → IsUtf8 body.now → IfOk result (λ text. text ≡ substituted_by (read default_config (chars self.now)) template.now body.now) }
    {
        match &self.compiled {
            Some(compiled) => Ok(compiled.substituted(alloc, template, body)?),
            None => {
                let compiled = self.compile(alloc)?;
                let text = compiled.substituted(alloc, template, body)?;
                Ok(text)
            }
        }
    }

    /// The name of the template's first reference to a group that the pattern lacks, as `regex` reads both: `$1`, `$name` or
    /// `${name}`. A substitution writes nothing for such a reference.
    pub fn missing_group<'a>(&self, template: &'a [u8]) -> Option<&'a str>
        ensures { option_map (λ s. s.now) result ≡ missing_group self.now template.now }
    {
        template::missing_group(self.names.as_slice(), template)
    }
}
