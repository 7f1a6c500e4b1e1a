//! Which job the words of the command line ask for.
ghost use Rattle.std.specs.Prelude.{◌↔◌, IsTrue, MatchOption, map, string_bytes};
ghost use Rattle.testgen_engine.specs.Words.{IsName, AsksGen, AsksNothing};

use p4_program::Bounds;
use std::default::Default;

/// A job of `gen`.
#[derive(Clone, Copy, Debug)]
pub struct Job<'a> {
    /// The name of the source.
    pub name: &'a str,
    pub bounds: Bounds,
}

/// Whether a word can name a file.
fn is_name(word: &str) -> bool
    ensures { IsTrue result ↔ IsName word.now }
{
    !word.is_empty() && !word.starts_with("--")
}

/// The job that the words ask for, where they do.
pub fn job_of(words: &[String]) -> Option<Job<'_>>
    ensures { MatchOption result (AsksNothing (map string_bytes words.now))
        (λ job. AsksGen (map string_bytes words.now) job.name.now job.bounds) }
{
    match words {
        [verb, name] if verb.as_str() == "gen" && is_name(name.as_str()) => Some(Job {
            name: name.as_str(),
            bounds: Bounds::default(),
        }),
        _ => None,
    }
}
