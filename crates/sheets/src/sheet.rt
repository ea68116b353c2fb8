//! Sheets: remarks, questions, and the cases of each.
use crate::case::{Case, CaseFault};
use crate::escape::unescaped;
use crate::page::Page;
use bz_items::Memory;
use std::alloc::{AllocError, Global};

/// What is after a mark and a space.
fn following(line: &str, mark: char) -> Option<&str> {
    let text = line.strip_prefix(mark)?;
    Some(text.strip_prefix(' ').unwrap_or(text))
}

/// The questions that a sheet can have for its cases.
pub trait Questions: Copy {
    /// Writes the answer to the question of a case.
    fn answer(self, case: &Case, page: &mut Page) -> Result<(), CaseFault>;
}

/// To what the last text belongs.
#[derive(Clone, Copy, PartialEq, Eq)]
enum Owner {
    Nothing,
    Question,
    Case,
}

/// A sheet that is read line by line: the question that is answered, the case that is read, and the answers so far.
#[derive(Drop)]
struct Reader<Q: Questions> {
    alloc: Global,
    questions: Q,
    // The question as it is written, with its argument.
    question: String,
    // Texts that go with each case.
    shared: Vec<String>,
    texts: Vec<String>,
    owner: Owner,
    page: Page,
}

/// The sheet with its answers put in. The error: a growth was refused.
pub fn answer_sheet<Q: Questions>(
    alloc: Global,
    sheet: &str,
    questions: Q,
) -> Result<Page, Memory> {
    let mut reader = Reader {
        alloc,
        questions,
        question: String::new(alloc),
        shared: Vec::new(alloc),
        texts: Vec::new(alloc),
        owner: Owner::Nothing,
        page: Page::new(alloc),
    };
    for line in sheet.lines() {
        reader.read(line)?;
    }
    reader.end_case()?;
    Ok(reader.page)
}

/// Appends a line to the last text.
fn append_line(texts: &mut Vec<String>, line: &str) -> Result<(), Memory> {
    if let Some(text) = texts.last_mut() {
        text.push_str("\n")?;
        text.push_str(line)?;
    }
    Ok(())
}

impl<Q: Questions> Reader<Q> {
    fn read(&mut self, line: &str) -> Result<(), Memory> {
        if let Some(text) = following(line, '&') {
            self.page.copy(line)?;
            return self.begin_text(text);
        }
        if let Some(text) = following(line, '|') {
            self.page.copy(line)?;
            return self.go_on(text);
        }
        self.end_case()?;
        self.page.copy(line)?;
        if let Some(text) = following(line, '>') {
            self.owner = Owner::Case;
            return self.begin_text(text);
        }
        if line.is_empty() || line.starts_with('#') {
            return Ok(());
        }
        self.question = String::from_str(self.alloc, line)?;
        self.shared.clear();
        self.owner = Owner::Question;
        Ok(())
    }

    fn begin_text(&mut self, text: &str) -> Result<(), Memory> {
        let text = String::from_str(self.alloc, text)?;
        match self.owner {
            Owner::Case => self.texts.push(text)?,
            Owner::Question => self.shared.push(text)?,
            Owner::Nothing => self.page.line("?", b"a text of no case")?,
        }
        Ok(())
    }

    fn go_on(&mut self, line: &str) -> Result<(), Memory> {
        match self.owner {
            Owner::Case => append_line(&mut self.texts, line),
            Owner::Question if !self.shared.is_empty() => append_line(&mut self.shared, line),
            _ => self.page.line("?", b"a line of no text"),
        }
    }

    /// Answers the case that is read, where one is.
    fn end_case(&mut self) -> Result<(), Memory> {
        let is_case = self.owner == Owner::Case;
        self.owner = Owner::Nothing;
        if !is_case {
            return Ok(());
        }
        let answer = self.answer();
        self.texts.clear();
        match answer {
            Ok(()) => Ok(()),
            Err(CaseFault::Memory) => Err(AllocError),
            Err(CaseFault::Refused(why)) => self.page.answer(why.as_bytes()),
            Err(CaseFault::Sheet(why)) => self.page.line("?", why.as_bytes()),
        }
    }

    fn answer(&mut self) -> Result<(), CaseFault> {
        let mut texts = Vec::new(self.alloc);
        for text in self.texts.iter().chain(self.shared.iter()) {
            let text = unescaped(self.alloc, text.as_str())?;
            texts.push(text).map_err(Memory::from)?;
        }
        let line = self.question.as_str();
        let (question, argument) = line.split_once(' ').unwrap_or((line, ""));
        let case = Case {
            alloc: self.alloc,
            question: String::from_str(self.alloc, question)?,
            argument: unescaped(self.alloc, argument)?,
            texts,
        };
        self.questions.answer(&case, &mut self.page)
    }
}
