ghost use Rattle.std.specs.Prelude.{◌≡◌};
ghost use Rattle.bz_token.specs.Classes.{class_number, class_of};

use bz_items::at;

/// What a token is. A tree keeps it with each leaf.
#[derive(Clone, Copy, Debug, PartialEq, Eq)]
pub enum Class {
    Name,
    Keyword,
    Number,
    String,
    Mark,
    Newline,
    End,
}

impl Class {
    /// The number of the class, from 1, as journals write it.
    pub fn number(&self) -> u8
        ensures { result ≡ class_number self.now }
    {
        match self {
            Class::Name => 1,
            Class::Keyword => 2,
            Class::Number => 3,
            Class::String => 4,
            Class::Mark => 5,
            Class::Newline => 6,
            Class::End => 7,
        }
    }

    /// The class of a number; `None` for a number that no class has.
    pub fn of(number: u8) -> Option<Class>
        ensures { result ≡ class_of number }
    {
        if number == 0 {
            return None;
        }
        at(&ALL, number as usize - 1).copied()
    }
}

const ALL: [Class; 7] = [
    Class::Name,
    Class::Keyword,
    Class::Number,
    Class::String,
    Class::Mark,
    Class::Newline,
    Class::End,
];
