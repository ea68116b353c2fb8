//! A case as the questions see it.
use bz_items::{Memory, at};
use std::alloc::Global;
use std::str::{FromStr, Utf8Error};

/// Why a case has no answer but this.
#[derive(Drop)]
pub enum CaseFault {
    /// A growth was refused.
    Memory,
    /// What the case is about is refused; why, which is the answer.
    Refused(String),
    /// The sheet is not written as it should be, or what it is about is not as it should be: why.
    Sheet(&'static str),
}

impl From<Memory> for CaseFault {
    fn from(_refused: Memory) -> CaseFault {
        CaseFault::Memory
    }
}

impl From<Utf8Error> for CaseFault {
    fn from(_fault: Utf8Error) -> CaseFault {
        CaseFault::Sheet("a text is not UTF-8")
    }
}

/// The name of the question of a case and its argument, and the texts of the case. Of these two the escapes are taken away.
#[derive(Drop)]
pub struct Case {
    pub alloc: Global,
    pub question: String,
    pub argument: Vec<u8>,
    pub texts: Vec<Vec<u8>>,
}

/// The text of bytes that have to be UTF-8.
pub fn utf8_of(bytes: &[u8]) -> Result<&str, CaseFault> {
    Ok(str::from_utf8(bytes)?)
}

/// The number that a word says.
pub fn number_of<N: FromStr>(word: &str) -> Result<N, CaseFault>
where
    N::Err: Drop,
{
    match word.parse::<N>() {
        Ok(number) => Ok(number),
        Err(_) => Err(CaseFault::Sheet("no number")),
    }
}

impl Case {
    /// The text at this place, from 0.
    pub fn given_text(&self, place: usize) -> Result<&[u8], CaseFault> {
        match at(self.texts.as_slice(), place) {
            Some(text) => Ok(text.as_slice()),
            None => Err(CaseFault::Sheet("a text is missing")),
        }
    }

    /// The last text.
    pub fn last_text(&self) -> Result<&[u8], CaseFault> {
        self.given_text(self.texts.len().saturating_sub(1))
    }

    /// The text at this place, which has to be UTF-8.
    pub fn text(&self, place: usize) -> Result<&str, CaseFault> {
        utf8_of(self.given_text(place)?)
    }

    /// The argument of the question, which has to be UTF-8.
    pub fn argument(&self) -> Result<&str, CaseFault> {
        utf8_of(self.argument.as_slice())
    }
}
