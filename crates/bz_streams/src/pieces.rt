//! Lines on standard error of several pieces. They take no memory.
ghost use Rattle.std.specs.Prelude.{◌≡◌, ◌++◌, flat_map};
ghost use Rattle.bz_streams.specs.Controls.{escaped_text};
ghost use Rattle.bz_streams.specs.Faults.{AppendsUnlessFailed, AnswersAppends};
ghost use Rattle.bz_streams.specs.Pieces.{line_piece_text};

use crate::controls::{escape, next_control};
use crate::{PortFault, Sink, write_whole};

/// A piece of a line on standard error.
#[derive(Clone, Copy)]
pub enum LinePiece<'a> {
    /// A text of the program's own, or a number: it is printed as it is.
    Own(&'a str),
    /// A text from outside, as the name of a file: its control characters are escaped.
    Outside(&'a str),
}

// Writes these bytes, up to the first fault, which is the error.
#[tactic(auto, using(crate::proofs::Written::answered))]
fn write_part<E: Sink>(err: &mut E, bytes: &[u8]) -> Result<(), PortFault>
    ensures { AnswersAppends result (E.faults err.old) (E.faults err.new) (E.contents err.old) (E.contents err.new) bytes.now }
{
    write_whole(err, bytes)
}

// Writes these bytes and then those, up to the first fault, which is the error.
#[tactic(auto, using(crate::proofs::Written::first_cut, crate::proofs::Written::both_answered))]
fn write_both<E: Sink>(err: &mut E, first: &[u8], second: &[u8]) -> Result<(), PortFault>
    ensures { AnswersAppends result (E.faults err.old) (E.faults err.new) (E.contents err.old) (E.contents err.new) (first.now ++ second.now) }
{
    write_part(err, first)?;
    write_part(err, second)
}

// Writes a text from outside, up to the first fault, which is the error.
#[tactic(auto, using(crate::proofs::Written::begins))]
fn write_escaped<E: Sink>(err: &mut E, text: &[u8]) -> Result<(), PortFault>
    ensures { AnswersAppends result (E.faults err.old) (E.faults err.new) (E.contents err.old) (E.contents err.new) (escaped_text text.now) }
{
    let mut left = text;
    while let Some((plain, control, rest)) = next_control(left) {
        match write_both(err, plain, escape(control).as_slice()) {
            Ok(()) => left = rest,
            Err(fault) => return Err(fault),
        }
    }
    write_part(err, left)
}

fn write_piece<E: Sink>(err: &mut E, piece: &LinePiece<'_>) -> Result<(), PortFault>
    ensures { AnswersAppends result (E.faults err.old) (E.faults err.new) (E.contents err.old) (E.contents err.new) (line_piece_text piece.now) }
{
    match piece {
        LinePiece::Own(text) => write_part(err, text.as_bytes()),
        LinePiece::Outside(text) => write_escaped(err, text.as_bytes()),
    }
}

// Writes these pieces, up to the first fault, which is the error.
#[tactic(auto, using(crate::proofs::Written::begins))]
fn write_pieces<E: Sink>(err: &mut E, pieces: &[LinePiece<'_>]) -> Result<(), PortFault>
    ensures { AnswersAppends result (E.faults err.old) (E.faults err.new) (E.contents err.old) (E.contents err.new) (flat_map line_piece_text pieces.now) }
{
    for piece in pieces {
        match write_piece(err, piece) {
            Ok(()) => {}
            Err(fault) => return Err(fault),
        }
    }
    Ok(())
}

/// Writes these pieces to `err`, one after the other, up to its first fault: a beginning of them then is there, and what is left is
/// dropped. It takes no memory itself.
#[tactic(auto, using(crate::proofs::Written::told))]
pub fn report_pieces<E: Sink>(err: &mut E, pieces: &[LinePiece<'_>])
    ensures { AppendsUnlessFailed (E.faults err.old) (E.faults err.new) (E.contents err.old) (E.contents err.new) (flat_map line_piece_text pieces.now) }
{
    let _ = write_pieces(err, pieces);
}

/// Writes these pieces, and below them these bytes, up to the first fault.
#[tactic(auto, using(crate::proofs::Written::first_cut, crate::proofs::Written::told))]
pub(crate) fn report_above<E: Sink>(err: &mut E, pieces: &[LinePiece<'_>], below: &[u8])
    ensures { AppendsUnlessFailed (E.faults err.old) (E.faults err.new) (E.contents err.old) (E.contents err.new) (flat_map line_piece_text pieces.now ++ below.now) }
{
    match write_pieces(err, pieces) {
        Ok(()) => {}
        Err(_) => return,
    }
    let _ = write_part(err, below);
}
