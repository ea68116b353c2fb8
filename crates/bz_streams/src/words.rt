//! What clap found among the words of a line.
ghost use Rattle.std.specs.Prelude.{◌≡◌, [], IfOk, map, option_map, unwrap_or};
ghost use Rattle.clap.specs.Words.{found_of, rows_of, all_of, first_of};

use clap::ArgMatches;
use std::alloc::{AllocError, Global};

/// The first text of an argument, if it has one.
pub fn argument_text<'a>(matches: &ArgMatches<'a>, id: &str) -> Option<&'a str>
    ensures { option_map (λ s. s.now) result ≡ first_of id.now (rows_of (found_of matches.now)) }
{
    matches.get_str(id)
}

/// The texts of an argument, in order; none where it was not used. The error: memory was refused.
pub fn argument_texts<'a>(
    alloc: Global,
    matches: &ArgMatches<'a>,
    id: &str,
) -> Result<Vec<&'a str>, AllocError>
    ensures { IfOk result (λ texts. map (λ s. s.now) texts.items
        ≡ unwrap_or (all_of id.now (rows_of (found_of matches.now))) []) }
{
    match matches.get_strs(id) {
        Some(texts) => Vec::from_slice(alloc, texts),
        None => Ok(Vec::new(alloc)),
    }
}
