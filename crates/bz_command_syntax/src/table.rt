//! The table of commands, and what each reads in the words after its name.
ghost use Rattle.std.specs.Prelude.{◌≡◌, ◌⊎◌, ◌∷◌, codes, true, Ok, IfOk, IfErr, map, option_map};
ghost use Rattle.bz_command_syntax.specs.Commands as c;
ghost use Rattle.bz_command_syntax.specs.Proper.{AreUtf8};
ghost use Rattle.bz_command_syntax.specs.Refused.{IsCommandFault, IsReadAs, IsReadFault};

use crate::command::{
    AttributeOperation, Command, CommentOperation, DictOperation, LoadOperation, Operation,
    RuleOperation, Selects, ValueOperation,
};
use crate::fault::CommandFault;
use crate::forms::{
    Read, as_text, attribute_and_values, attribute_and_word, attribute_key_values,
    attribute_key_words, attribute_pairs, attributes_and_words, attributes_of, ensure, entries_of,
    fields_of, fixes_of, has_values, host_of, is_kind_name, is_text, moved_values, new_rule,
    path_symbols, take_first, two_attributes, two_words, usages_repos,
};
use crate::pattern::Pattern;
use crate::profile::{Profile, by_profile};
use crate::words::read_words;
use bz_items::{Items, Text};
use std::alloc::Global;

fn delete_of(words: Vec<Text>) -> Read<Operation>
    ensures { result ≡ c.delete_of words.items }
{
    ensure!(words.is_empty());
    Ok(Operation::Rule(RuleOperation::Delete))
}

fn begins_with_kind(words: &[Text]) -> bool
    ensures { result ≡ c.begins_with_kind words.now }
{
    matches!(words, [word, ..] if is_text(word, b"kind"))
}

fn set_of(mut words: Vec<Text>) -> Read<Operation>
    ensures { result ≡ c.set_of words.items }
{
    if !begins_with_kind(&words) {
        let (attribute, values) = attribute_and_values(words)?;
        return Ok(Operation::Attribute(AttributeOperation::Set { attribute, values }));
    }
    drop(take_first(&mut words)?);
    let kind = take_first(&mut words)?;
    ensure!(words.is_empty() && is_kind_name(kind.as_slice()));
    Ok(Operation::Rule(RuleOperation::SetKind { kind }))
}

fn set_if_absent_of(words: Vec<Text>) -> Read<Operation>
    ensures { result ≡ c.set_if_absent_of words.items }
{
    ensure!(!begins_with_kind(&words));
    let (attribute, values) = attribute_and_values(words)?;
    Ok(Operation::Attribute(AttributeOperation::SetIfAbsent { attribute, values }))
}

fn remove_of(mut words: Vec<Text>) -> Read<Operation>
    ensures { result ≡ c.remove_of words.items }
{
    let attribute = take_first(&mut words)?;
    let attributes = attributes_of(attribute)?;
    if has_values(&words) {
        let values = Items::from_vec(words);
        return Ok(Operation::Value(ValueOperation::Remove {
            attributes,
            values,
            selects: Selects::Skipped,
        }));
    }
    Ok(Operation::Attribute(AttributeOperation::Remove { attributes }))
}

// The pattern is compiled last, so that what is wrong with the words is reported first.
fn substitute_of(words: Vec<Text>) -> Read<Operation>
    requires { AreUtf8 words.items }
    ensures { IsReadAs (c.listed_in true (codes "substitute" ∷ words.items)) result }
{
    let alloc = *words.allocator();
    let (attributes, pattern, template) = attributes_and_words(words)?;
    let pattern = Pattern::read(alloc, as_text(&pattern))?;
    Ok(Operation::Value(ValueOperation::Substitute {
        attributes,
        pattern,
        template,
        selects: Selects::Skipped,
    }))
}

fn substitute_load_of(words: Vec<Text>) -> Read<Operation>
    requires { AreUtf8 words.items }
    ensures { IsReadAs (c.listed_in true (codes "substitute_load" ∷ words.items)) result }
{
    let alloc = *words.allocator();
    let (pattern, template) = two_words(words)?;
    let pattern = Pattern::read(alloc, as_text(&pattern))?;
    Ok(Operation::Load(LoadOperation::Substitute { pattern, template }))
}

fn set_select_of(words: Vec<Text>) -> Read<Operation>
    ensures { IsReadAs (c.set_select_of words.items) result }
{
    ensure!(!begins_with_kind(&words));
    let (attribute, entries) = attribute_pairs(words)?;
    Ok(Operation::Dict(DictOperation::Select { attribute, entries }))
}

fn is_one_line(text: &Text) -> bool
    ensures { result ≡ c.is_one_line text.now }
{
    !text.as_slice().contains(&b'\n')
}

#[tactic(auto, using(crate::proofs::CommentWords::comment_cut, crate::proofs::CommentWords::comment_refused))]
fn comment_of(mut words: Vec<Text>) -> Read<Operation>
    ensures { result ≡ c.listed_in true (codes "comment" ∷ words.items) }
{
    let Some(text) = words.pop() else {
        return Err(CommandFault::Arguments);
    };
    ensure!(is_one_line(&text));
    let host = host_of(words)?;
    Ok(Operation::Comment(CommentOperation::Add { host, text }))
}

// Hands the table to `made_of`: the name of each command, the forms that the words after it have, what reads these, and the operation that is
// made of the parts that it reads, where it gives parts.
macro_rules! commands {
    ($($wanted:ident)*) => {
        made_of!(
            ($($wanted)*)
            "new" => "'new KIND NAME [before RULE]' or 'new KIND NAME [after RULE]'",
                new_rule, |(kind, name, place)| Operation::Rule(RuleOperation::New { kind, name, place });
            "delete" => "'delete'", delete_of;
            "set" => "'set ATTR VALUE..' or 'set kind KIND'", set_of;
            "set_if_absent" => "'set_if_absent ATTR VALUE..'", set_if_absent_of;
            "add" => "'add ATTR VALUE..'",
                attribute_and_values, |(attribute, values)| Operation::Value(ValueOperation::Add { attribute, values });
            "remove" => "'remove ATTR', 'remove *', 'remove ATTR VALUE..' or 'remove * VALUE..'", remove_of;
            "remove_if_equal" => "'remove_if_equal ATTR VALUE'",
                attribute_and_word, |(attribute, value)| Operation::Value(ValueOperation::RemoveIfEqual { attribute, value });
            "replace" => "'replace ATTR OLD NEW' or 'replace * OLD NEW'",
                attributes_and_words, |(attributes, old, new)| Operation::Value(ValueOperation::Replace { attributes, old, new, selects: Selects::Skipped });
            "substitute" => "'substitute ATTR PATTERN TEMPLATE' or 'substitute * PATTERN TEMPLATE'", substitute_of;
            "move" => "'move FROM TO VALUE..' or 'move FROM TO *'",
                moved_values, |(from, to, values)| Operation::Value(ValueOperation::Move { from, to, values });
            "rename" => "'rename OLD NEW'",
                two_attributes, |(from, to)| Operation::Attribute(AttributeOperation::Rename { from, to });
            "copy" => "'copy ATTR RULE'",
                attribute_and_word, |(attribute, rule)| Operation::Attribute(AttributeOperation::Copy { attribute, rule });
            "copy_no_overwrite" => "'copy_no_overwrite ATTR RULE'",
                attribute_and_word, |(attribute, rule)| Operation::Attribute(AttributeOperation::CopyNoOverwrite { attribute, rule });
            "dict_add" => "'dict_add ATTR KEY:VALUE..'",
                entries_of, |(attribute, entries)| Operation::Dict(DictOperation::Add { attribute, entries });
            "dict_set" => "'dict_set ATTR KEY:VALUE..'",
                entries_of, |(attribute, entries)| Operation::Dict(DictOperation::Set { attribute, entries });
            "dict_remove" => "'dict_remove ATTR KEY..'",
                attribute_and_values, |(attribute, keys)| Operation::Dict(DictOperation::Remove { attribute, keys });
            "dict_replace_if_equal" => "'dict_replace_if_equal ATTR KEY OLD NEW'",
                attribute_key_words, |(attribute, key, old, new)| Operation::Dict(DictOperation::ReplaceIfEqual { attribute, key, old, new });
            "dict_list_add" => "'dict_list_add ATTR KEY VALUE..'",
                attribute_key_values, |(attribute, key, values)| Operation::Dict(DictOperation::ListAdd { attribute, key, values });
            "set_select" => "'set_select ATTR KEY VALUE [KEY VALUE]..'", set_select_of;
            "new_load" => "'new_load PATH [TO=]FROM..'",
                path_symbols, |(path, symbols)| Operation::Load(LoadOperation::New { path, symbols });
            "replace_load" => "'replace_load PATH [TO=]FROM..'",
                path_symbols, |(path, symbols)| Operation::Load(LoadOperation::Replace { path, symbols });
            "substitute_load" => "'substitute_load PATTERN TEMPLATE'", substitute_load_of;
            "use_repo_add" => "'use_repo_add [dev] FILE EXTENSION [NAME=]REPO..' or 'use_repo_add VARIABLE [NAME=]REPO..'",
                usages_repos, |(usages, repos)| Operation::Load(LoadOperation::AddRepos { usages, repos });
            "use_repo_remove" => "'use_repo_remove [dev] FILE EXTENSION [NAME=]REPO..' or 'use_repo_remove VARIABLE [NAME=]REPO..'",
                usages_repos, |(usages, repos)| Operation::Load(LoadOperation::RemoveRepos { usages, repos });
            "comment" => "'comment [ATTR [VALUE]] TEXT'", comment_of;
            "print_comment" => "'print_comment [ATTR [VALUE]]'",
                host_of, |host| Operation::Comment(CommentOperation::Print { host });
            "remove_comment" => "'remove_comment [ATTR [VALUE]]'",
                host_of, |host| Operation::Comment(CommentOperation::Remove { host });
            "fix" => "'fix [unusedLoads] [movePackageToTop]'",
                fixes_of, |fixes| Operation::Load(LoadOperation::Fix { fixes });
            "print" => "'print [FIELD..]'",
                fields_of, |fields| Operation::Print { fields };
        )
    };
}

// What is made of the table: the names, the names with the forms, or what the command of the given name reads in the words after it.
macro_rules! made_of {
    ((names) $($name:literal => $forms:literal, $reader:ident $(, $make:expr)?;)*) => {
        &[$($name),*]
    };
    ((forms) $($name:literal => $forms:literal, $reader:ident $(, $make:expr)?;)*) => {
        &[$(($name, $forms)),*]
    };
    (($given:ident $words:ident) $($name:literal => $forms:literal, $reader:ident $(, $make:expr)?;)*) => {
        match $given {
            $($name => $reader($words)$(.map($make))?,)*
            _ => Err(CommandFault::Unknown),
        }
    };
}

/// The names of all commands.
pub const COMMAND_NAMES: &[&str] = commands!(names);

const COMMAND_FORMS: &[(&str, &str)] = commands!(forms);

// What a table of texts has for this name.
fn row_named(rows: &[(&'static str, &'static str)], name: &str) -> Option<&'static str>
    ensures { option_map (λ s. s.now) result ≡ c.row_named (map (λ row. (row.0.now, row.1.now)) rows.now) name.now }
{
    for row in rows {
        if name == row.0 {
            return Some(row.1);
        }
    }
    None
}

/// The forms of the words of the command of this name, each in quotation marks.
pub fn command_form(name: &str) -> Option<&'static str>
    ensures { option_map (λ s. s.now) result ≡ c.row_named c.command_forms name.now }
{
    row_named(COMMAND_FORMS, name)
}

// What the command of this name reads in the words after it.
#[tactic(auto, using(crate::proofs::Named::by_name))]
fn read_named(name: &str, words: Vec<Text>) -> Read<Operation>
    requires { AreUtf8 words.items }
    ensures { IsReadAs (c.listed_in true (name.now ∷ words.items)) result }
{
    commands!(name words)
}

// The same in a profile.
#[tactic(auto, using(crate::proofs::Profiles::read_in))]
fn read_in(profile: Profile, name: &str, words: Vec<Text>) -> Read<Operation>
    requires { AreUtf8 words.items }
    ensures { IsReadAs (c.command_in profile true (name.now ∷ words.items)) result }
{
    match read_named(name, words) {
        Ok(operation) => by_profile(profile, operation),
        Err(fault) => Err(fault),
    }
}

/// The most bytes of a command's text.
pub const TEXT_LIMIT: usize = 65_536;

impl Command {
    /// The command of these words in a profile; `fits` says that their text is not too long. The errors are those of `read`; `label` is a
    /// field of `print` in bazelbuild's profile alone.
    #[tactic(auto, using(crate::proofs::ProperCommands::read_proper, crate::proofs::Named::too_long))]
    pub fn of_words_in(
        profile: Profile,
        mut words: Vec<Text>,
        fits: bool,
    ) -> Result<Command, CommandFault>
        requires { AreUtf8 words.items }
        ensures ok { IfOk result (λ command. c.command_in profile fits words.items ≡ Ok command) }
        ensures err { IfErr result (λ fault. IsReadFault (c.command_in profile fits words.items) fault ⊎ (fault ≡ CommandFault.Memory)) }
    {
        let Ok(name) = take_first(&mut words) else {
            return Err(CommandFault::Unknown);
        };
        if !fits {
            // An unknown name is reported first; the further words are not read.
            return match command_form(as_text(&name)) {
                Some(_) => Err(CommandFault::Arguments),
                None => Err(CommandFault::Unknown),
            };
        }
        let operation = read_in(profile, as_text(&name), words)?;
        Ok(Command { operation })
    }

    /// The command of these words in the own profile.
    pub fn of_words(words: Vec<Text>, fits: bool) -> Result<Command, CommandFault>
        requires { AreUtf8 words.items }
        ensures ok { IfOk result (λ command. c.command_in Profile.Own fits words.items ≡ Ok command) }
        ensures err { IfErr result (λ fault. IsReadFault (c.command_in Profile.Own fits words.items) fault ⊎ (fault ≡ CommandFault.Memory)) }
    {
        Command::of_words_in(Profile::Own, words, fits)
    }

    /// The command of a text in the own profile: its words are separated by runs of spaces, where a space right after a backslash belongs
    /// to the word and the backslash goes. The errors, in this order: `Unknown`: the first word is no command's name, or
    /// there is none; `Arguments`: the text is longer than 65,536 bytes, or the further words don't have the command's form;
    /// `BadPattern`: `regex` refuses the pattern of `substitute`; at any time `Memory`: a growth was refused.
    pub fn read(alloc: Global, text: &str) -> Result<Command, CommandFault>
        ensures ok { IfOk result (λ command. c.command_of Profile.Own text.now ≡ Ok command) }
        ensures err { IfErr result (λ fault. IsCommandFault text.now fault ⊎ (fault ≡ CommandFault.Memory)) }
    {
        let words = read_words(alloc, text.as_bytes())?;
        Command::of_words(words, text.len() <= TEXT_LIMIT)
    }
}
