//! Sessions: what each of several actions on a text is answered, and the text that is then present.
use crate::commands::read_command;
use crate::labels::read_target;
use crate::trees::known;
use bz_command_syntax::Command;
use bz_items::Memory;
use bz_journal::{Action, Reply, Session};
use bz_label::Target;
use bz_value::Refusal;
use sheets::{Case, CaseFault, Page, number_of};
use std::alloc::Global;

/// The session of a case, over its last text.
pub(crate) fn opened(case: &Case) -> Result<Session, CaseFault> {
    let text = case.last_text()?;
    let package = case.argument()?;
    if package.len() > 65_536 {
        return Err(CaseFault::Sheet("a package of more than 65,536 bytes"));
    }
    known(case.alloc, Session::open(case.alloc, package, text))
}

/// What all texts of a case but the last one request.
fn requests_of(case: &Case) -> Result<Vec<Request>, CaseFault> {
    let mut requests = Vec::new(case.alloc);
    for place in 1..case.texts.len() {
        requests.reserve(1)?;
        requests.push_reserved(request_of(case.alloc, case.text(place - 1)?)?);
    }
    Ok(requests)
}

/// Writes the answers to the actions of a case; then where the session is, and its text.
pub(crate) fn answer(case: &Case, page: &mut Page) -> Result<(), CaseFault> {
    let mut session = opened(case)?;
    for reply in replies_of(case, &mut session)?.as_slice() {
        show_reply(case.alloc, reply, page)?;
    }
    Ok(show_present(case.alloc, &session, page)?)
}

/// Writes the weight of each step that there is after the actions.
pub(crate) fn answer_weights(case: &Case, page: &mut Page) -> Result<(), CaseFault> {
    let mut session = opened(case)?;
    let _replies = replies_of(case, &mut session)?;
    Ok(show_weights(case.alloc, &session, page)?)
}

/// What a line requests of a session: the command and the target of an action are its own.
#[derive(Drop)]
pub(crate) enum Request {
    Do(Command, Target),
    Format,
    Undo(u32),
    Redo(u32),
}

impl Request {
    pub(crate) fn action(&self) -> Action<'_> {
        match self {
            Request::Do(command, target) => Action::Do(command, target),
            Request::Format => Action::Format,
            Request::Undo(steps) => Action::Undo(*steps),
            Request::Redo(steps) => Action::Redo(*steps),
        }
    }
}

/// What a line requests: a command and after it, as the last word, its target.
pub(crate) fn request_of(alloc: Global, line: &str) -> Result<Request, CaseFault> {
    if line == "format" {
        return Ok(Request::Format);
    }
    let Some((command, word)) = line.rsplit_once(' ') else {
        return Err(CaseFault::Sheet("no such action"));
    };
    match command {
        "undo" => Ok(Request::Undo(number_of(word)?)),
        "redo" => Ok(Request::Redo(number_of(word)?)),
        _ => Ok(Request::Do(read_command(alloc, command)?, read_target(alloc, word)?)),
    }
}

/// What a session answers to the actions of a case.
fn replies_of(
    case: &Case,
    session: &mut Session,
) -> Result<Vec<Result<Reply, Refusal>>, CaseFault> {
    let requests = requests_of(case)?;
    Ok(replies_to(case.alloc, session, requests.as_slice())?)
}

/// `Session::run` of these, of which nothing has to be known here.
fn replies_to(
    alloc: Global,
    session: &mut Session,
    requests: &[Request],
) -> Result<Vec<Result<Reply, Refusal>>, Memory> {
    let mut actions = Vec::with_capacity(alloc, requests.len())?;
    for request in requests {
        actions.push(request.action())?;
    }
    let mut replies = Vec::new(alloc);
    session.run(actions.as_slice(), &mut replies)?;
    Ok(replies)
}

/// Writes what an action is answered.
pub(crate) fn show_reply(
    alloc: Global,
    reply: &Result<Reply, Refusal>,
    page: &mut Page,
) -> Result<(), Memory> {
    match reply {
        Ok(Reply::Printed(text)) => {
            page.answer(b"Printed")?;
            page.text("<", text.as_slice())
        }
        Ok(reply) => page.answer(format!(in alloc; "{reply:?}")?.as_bytes()),
        Err(refusal) => {
            page.answer(format!(in alloc; "{} {refusal}", refusal.number())?.as_bytes())
        }
    }
}

/// Writes where a session is, and its text.
fn show_present(alloc: Global, session: &Session, page: &mut Page) -> Result<(), Memory> {
    let place = format!(in alloc; "{} of {} steps", session.cursor(), session.steps())?;
    page.answer(place.as_bytes())?;
    let mut text = Vec::new(alloc);
    session.text_into(&mut text)?;
    page.text("<", text.as_slice())
}

/// Writes the weight of each step of a session.
fn show_weights(alloc: Global, session: &Session, page: &mut Page) -> Result<(), Memory> {
    for step in 0..session.steps() {
        if let Some(weight) = session.weight(step) {
            page.answer(format!(in alloc; "{weight}")?.as_bytes())?;
        }
    }
    Ok(())
}
