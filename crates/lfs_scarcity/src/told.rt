//! Lines for what came of a call.

ghost use Rattle.std.specs.Prelude.{◌≡◌, MatchResult, None, Some, false, true};

use std::fmt::{Debug, Display};
use std::io::Write;

/// Writes what was asked for, and that it was given or why it was not, and says whether it was refused.
pub(crate) fn told<T: Drop, E: Debug + Drop, W: Write>(
    writer: &mut W,
    what: &str,
    given: Result<T, E>,
) -> bool
    ensures { MatchResult given (λ _. result ≡ false) (λ _. result ≡ true) }
{
    kept(writer, what, given).is_none()
}

/// The same, but hands out what was given.
pub(crate) fn kept<T, E: Debug + Drop, W: Write>(
    writer: &mut W,
    what: &str,
    given: Result<T, E>,
) -> Option<T>
    ensures { MatchResult given (λ value. result ≡ Some value) (λ _. result ≡ None) }
{
    match given {
        Ok(value) => {
            let _ = writeln!(writer, "{what} ok");
            Some(value)
        }
        Err(error) => {
            let _ = writeln!(writer, "{what} {error:?}");
            None
        }
    }
}

/// The same, but writes nothing of what was given: what is asked for is only a step on the way.
pub(crate) fn on_the_way<T, E: Debug + Drop, W: Write>(
    writer: &mut W,
    what: &str,
    given: Result<T, E>,
) -> Option<T>
    ensures { MatchResult given (λ value. result ≡ Some value) (λ _. result ≡ None) }
{
    match given {
        Ok(value) => Some(value),
        Err(error) => {
            let _ = writeln!(writer, "{what} {error:?}");
            None
        }
    }
}

/// Writes how a run ended, a fault as the line that `lfsd` tells it by.
pub(crate) fn tell_end<E: Display + Drop, W: Write>(writer: &mut W, outcome: Result<(), E>) {
    match outcome {
        Ok(()) => {
            let _ = writer.write(b"done\n");
        }
        Err(fault) => {
            let _ = writeln!(writer, "lfsd: {fault}");
        }
    }
}
