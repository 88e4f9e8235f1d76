//! The words of the cleaner's calls, as a script says them and an answer's line tells them.

ghost use Rattle.std.specs.Prelude.{◌≡◌};
ghost use Rattle.lfs_print.specs.CleanerWords.{cleaner_word};

use lfs_model::journal::CleanerKind;

/// The word of a call of the cleaner.
pub fn cleaner_word(kind: CleanerKind) -> &'static str
    ensures { result.now ≡ cleaner_word kind }
{
    match kind {
        CleanerKind::Ifile => "ifile",
        CleanerKind::Infos => "infos",
        CleanerKind::Bmapv => "bmapv",
        CleanerKind::Markv => "markv",
        CleanerKind::Segclean => "segclean",
        CleanerKind::Gain => "gain",
    }
}
