//! The values that the words of a command line give.

ghost use Rattle.std.specs.Prelude.{◌≡◌, ℕ, List, map, IfOk, IfErr};
ghost use Rattle.std.specs.List.{list_all};
ghost use Rattle.cqp_words.specs.declared.given.WordsEnd.TheVariants.{Usage};
ghost use Rattle.cqp_words.specs.Items.{Item, AreItems, form_of, is_known};
ghost use Rattle.cqp_words.specs.Given.{Gives};
ghost use Rattle.clap.specs.Values.{kind_of};
ghost use Rattle.clap.specs.declared.error.kind.ErrorKind.TheVariants.{OutOfMemory};

use crate::known::is_known;
use crate::matched::matched;
use clap::error::ErrorKind;
use clap::{ArgMatches, Error};
use std::alloc::{AllocError, Global};

/// Why words name no command.
#[derive(Clone, Copy, Debug, PartialEq, Eq)]
pub enum WordsEnd {
    /// The words are in no case.
    Usage,
    NoMemory,
}

/// The values that the words give, where they are words of their own and options with values.
pub(crate) fn given_values<'a>(
    alloc: Global,
    words: &'a [&'a str],
) -> Result<ArgMatches<'a>, WordsEnd>
    ensures given { IfOk result (λ m. (is : List Item)
        × AreItems (map (λ w. w.now) words.entry.now) is × Gives m is) }
    ensures usage { IfErr result (λ e. e ≡ Usage
        → (is : List Item) → AreItems (map (λ w. w.now) words.entry.now) is → ⊥) }
{
    if !are_known(words) {
        return Err(WordsEnd::Usage);
    }
    match matched(alloc, words) {
        Ok(matches) => Ok(matches),
        Err(error) => Err(end_of(error)),
    }
}

/// Whether each word begins with no `-`, or is an option.
fn are_known(words: &[&str]) -> bool
    ensures { result ≡ list_all (λ w. is_known (form_of w.now)) words.now }
{
    words.iter().all(|word| is_known(word))
}

/// The end that an error of `clap` stands for.
fn end_of(error: Error) -> WordsEnd
    ensures { result ≡ Usage → kind_of error ≡ OutOfMemory → ⊥ }
{
    match error.kind() {
        ErrorKind::OutOfMemory => WordsEnd::NoMemory,
        _ => WordsEnd::Usage,
    }
}

impl From<AllocError> for WordsEnd {
    ghost use Rattle.std.specs.Prelude.{◌≡◌};
    ghost use Rattle.cqp_words.specs.declared.given.WordsEnd.TheVariants.{NoMemory};

    ghost from_gives = { λ _ e. e ≡ NoMemory };

    fn from(_: AllocError) -> WordsEnd {
        WordsEnd::NoMemory
    }
}
