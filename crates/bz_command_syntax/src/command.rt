//! Commands, as their words give them.
use crate::pattern::Pattern;
use bz_items::{Items, Text};
use std::marker::Model;

pub(crate) type Texts = Items<Text>;

pub(crate) type Entries = Items<Entry>;

/// A command as it can be read: the attributes of its operation are identifiers, its kinds are kinds, where values are
/// required there is one, and all its texts are UTF-8.
#[derive(Drop)]
pub struct Command {
    pub operation: Operation,
}

impl Model for Command {
    ghost use Rattle.bz_command_syntax.specs.declared.command.Operation.{Operation};
    ghost use Rattle.bz_command_syntax.specs.Proper.{IsProperCommand};

    ghost Value = { Operation };

    ghost view = { λ command. command.operation };

    ghost invariant = { λ command. IsProperCommand command.operation };
}

impl Command {
    ghost use Rattle.std.specs.Prelude.{◌≡◌};
    ghost use Rattle.bz_command_syntax.specs.Printing.{prints};

    /// Whether the command prints, and leaves the file as it is.
    pub fn prints(&self) -> bool
        ensures { result ≡ prints self.now }
    {
        matches!(
            self.operation,
            Operation::Comment(CommentOperation::Print { .. }) | Operation::Print { .. }
        )
    }
}

/// What is done to the rules that a target means, in groups by what the commands work on. Attributes, kinds and values are
/// as they are written: no value is shortened yet, and none is in quotation marks.
pub enum Operation {
    /// On rules as a whole.
    Rule(RuleOperation),
    /// On attributes as a whole.
    Attribute(AttributeOperation),
    /// On the values of attributes.
    Value(ValueOperation),
    /// On attributes that are dicts.
    Dict(DictOperation),
    /// On the symbols that the file loads.
    Load(LoadOperation),
    /// On comments.
    Comment(CommentOperation),
    /// Fields of the rules, one or more, are printed.
    Print { fields: Items<Field> },
}

impl Drop for Operation {
    fn drop(self) {
        match self {
            Operation::Rule(_) => {}
            Operation::Attribute(_) => {}
            Operation::Value(_) => {}
            Operation::Dict(_) => {}
            Operation::Load(_) => {}
            Operation::Comment(_) => {}
            Operation::Print { fields: _ } => {}
        }
    }
}

/// What is done to rules as a whole.
#[derive(Drop)]
pub enum RuleOperation {
    /// A new rule of this kind with this name.
    New {
        kind: Text,
        name: Text,
        place: RulePlace,
    },
    /// Each rule's statement goes, with its comments.
    Delete,
    /// The rule's kind becomes this one.
    SetKind {
        kind: Text,
    },
}

/// What is done to attributes as a whole.
#[derive(Drop)]
pub enum AttributeOperation {
    /// The attribute's value becomes these, one or more.
    Set { attribute: Text, values: Texts },
    /// The same where there is no such attribute.
    SetIfAbsent { attribute: Text, values: Texts },
    /// Whole attributes go.
    Remove { attributes: Attributes },
    /// The attribute gets another name.
    Rename { from: Text, to: Text },
    /// The attribute gets the value that it has in the first rule of this name.
    Copy { attribute: Text, rule: Text },
    /// The same where there is no such attribute.
    CopyNoOverwrite { attribute: Text, rule: Text },
}

/// What is done to the values of attributes.
#[derive(Drop)]
pub enum ValueOperation {
    /// These values, one or more, go to the end of the attribute's list where they are no items of it.
    Add {
        attribute: Text,
        values: Texts,
    },
    /// These values, one or more, go from the attribute's lists.
    Remove {
        attributes: Attributes,
        values: Texts,
        selects: Selects,
    },
    /// A value becomes another one, in lists or alone.
    Replace {
        attributes: Attributes,
        old: Text,
        new: Text,
        selects: Selects,
    },
    /// In the plain strings of lists, or in one alone, each match of the pattern is replaced by the template.
    Substitute {
        attributes: Attributes,
        pattern: Pattern,
        template: Text,
        selects: Selects,
    },
    /// Values go from one attribute's lists to another's.
    Move {
        from: Text,
        to: Text,
        values: Values,
    },
    /// The attribute goes where it has this value.
    RemoveIfEqual {
        attribute: Text,
        value: Text,
    },
}

/// What is done to attributes that are dicts.
#[derive(Drop)]
pub enum DictOperation {
    /// Entries whose key isn't there, one or more, go to the end of the attribute's dict.
    Add {
        attribute: Text,
        entries: Entries,
    },
    /// The same, and the value of a key that is there becomes this one.
    Set {
        attribute: Text,
        entries: Entries,
    },
    /// The entries of these keys, one or more, go from the attribute's dict.
    Remove {
        attribute: Text,
        keys: Texts,
    },
    /// The value of a key becomes another one, where it is this one.
    ReplaceIfEqual {
        attribute: Text,
        key: Text,
        old: Text,
        new: Text,
    },
    /// These values, one or more, go to the end of the list of a key, where they are no items of it.
    ListAdd {
        attribute: Text,
        key: Text,
        values: Texts,
    },
    /// The attribute's value becomes a `select` of these entries, one or more.
    Select {
        attribute: Text,
        entries: Entries,
    },
}

/// What is done to the symbols that the file loads, and to the repositories that it imports.
#[derive(Drop)]
pub enum LoadOperation {
    /// Symbols, one or more, are loaded from a path.
    New { path: Text, symbols: Items<Symbol> },
    /// The file is mended.
    Fix { fixes: Fixes },
    /// The same symbols as in `New`, and from no other path.
    Replace { path: Text, symbols: Items<Symbol> },
    /// In the path of each load, each match of the pattern is replaced by the template.
    Substitute { pattern: Pattern, template: Text },
    /// Repositories, one or more, are imported from an extension.
    AddRepos { usages: Usages, repos: Items<Repo> },
    /// Repositories, one or more, are imported from an extension no more.
    RemoveRepos { usages: Usages, repos: Items<Repo> },
}

/// The usages of a module extension that a command is meant for.
pub enum Usages {
    /// Those of the extension of this name in this file; with `dev` the development ones alone, else the others alone.
    Extension { dev: bool, file: Text, name: Text },
    /// Those that are assigned to this variable.
    Variable(Text),
}

impl Drop for Usages {
    fn drop(self) {
        match self {
            Usages::Extension {
                dev: _,
                file: _,
                name: _,
            } => {}
            Usages::Variable(_) => {}
        }
    }
}

/// A repository of an extension, as a command names it.
pub enum Repo {
    /// Under whatever name; what is new is imported under its own.
    Plain(Text),
    /// Under this name.
    Named { name: Text, repo: Text },
}

impl Drop for Repo {
    fn drop(self) {
        match self {
            Repo::Plain(_) => {}
            Repo::Named { name: _, repo: _ } => {}
        }
    }
}

/// What is done to comments, or with them.
#[derive(Drop)]
pub enum CommentOperation {
    /// A comment is put above.
    Add { host: Host, text: Text },
    /// The comments are printed.
    Print { host: Host },
    /// The comments go.
    Remove { host: Host },
}

/// Where a new rule goes.
pub enum RulePlace {
    /// To the end of the file.
    End,
    /// Right before the first rule of this name.
    Before(Text),
    /// Right after the first rule of this name.
    After(Text),
}

impl Drop for RulePlace {
    fn drop(self) {
        match self {
            RulePlace::End => {}
            RulePlace::Before(_) => {}
            RulePlace::After(_) => {}
        }
    }
}

/// The attributes that a command is meant for.
pub enum Attributes {
    /// All but `name`: `*`.
    All,
    /// The attribute of this name.
    Named(Text),
}

impl Drop for Attributes {
    fn drop(self) {
        match self {
            Attributes::All => {}
            Attributes::Named(_) => {}
        }
    }
}

/// Whether the lists in the branches of a `select` are among the lists of a value.
#[derive(Clone, Copy)]
pub enum Selects {
    /// They are not.
    Skipped,
    /// They are.
    Entered,
}

/// The values that are moved.
#[derive(Drop)]
pub enum Values {
    /// All: `*`, alone or beside others.
    All,
    /// These values, one or more.
    These(Items<Text>),
}

/// An entry of a dict, as it is written.
#[derive(Drop)]
pub struct Entry {
    pub key: Text,
    pub value: Text,
}

/// A symbol that is loaded: its name in the file that loads it, and its name in the file that is loaded.
#[derive(Drop)]
pub struct Symbol {
    pub to: Text,
    pub from: Text,
}

/// What carries the comments that a command is meant for.
pub enum Host {
    /// The rule itself.
    Rule,
    /// The attribute of this name.
    Attribute(Text),
    /// The first item of the attribute's lists that is this value.
    Item {
        attribute: Text,
        value: Text,
        selects: Selects,
    },
}

impl Drop for Host {
    fn drop(self) {
        match self {
            Host::Rule => {}
            Host::Attribute(_) => {}
            Host::Item {
                attribute: _,
                value: _,
                selects: _,
            } => {}
        }
    }
}

/// What `fix` mends.
#[derive(Clone, Copy)]
pub struct Fixes {
    /// The first rule of kind `package` goes after the loads.
    pub move_package_to_top: bool,
    /// Symbols that nothing uses are loaded no more.
    pub unused_loads: bool,
}

/// A field of a rule that is printed.
#[derive(Drop)]
pub enum Field {
    /// The rule's kind.
    Kind,
    /// The line on which the rule begins.
    StartLine,
    /// The rule's text.
    Rule,
    /// The rule's label.
    Label,
    /// The value of the attribute of this name.
    Attribute(Text),
}
