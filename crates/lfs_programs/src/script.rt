//! The file of a script.

ghost use Rattle.std.specs.Prelude.{◌≡◌, IfErr, IfOk, IsSome, is_some};

use crate::fault::UnopenedScript;
use std::fs::File;
use std::rt::Files;

/// Opens the file of a script, where one is named.
///
/// # Errors
///
/// One is named, and could not be opened.
pub(crate) fn open_script<'a, F: Files>(
    files: &F,
    path: Option<&'a str>,
) -> Result<Option<F::File>, UnopenedScript<'a>>
    ensures opened { IfOk result (λ script. is_some script ≡ is_some path.entry) }
    ensures named { IfErr result (λ _. IsSome path.entry) }
{
    let Some(path) = path else {
        return Ok(None);
    };
    match File::open(files, path) {
        Ok(file) => Ok(Some(file)),
        Err(error) => Err(UnopenedScript {
            path,
            kind: error.kind(),
        }),
    }
}
