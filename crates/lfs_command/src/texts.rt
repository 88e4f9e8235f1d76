//! Options that take a text.

ghost use Rattle.std.specs.Prelude.{◌≡◌, Some, option_map};
ghost use Rattle.clap.specs.Matches.{first_value, found_of};
ghost use Rattle.clap.specs.Walk.{rule_of};
ghost use Rattle.clap.specs.declared.builder.texts.Texts.TheVariants.{One};
ghost use Rattle.lfs_command.specs.Options.{text_rule};

use clap::{Arg, ArgAction, ArgMatches};
use std::alloc::Global;

/// An option that takes a text.
#[derive(Clone, Copy)]
pub struct TextOption {
    /// Its name.
    pub name: &'static str,
    /// What `--help` calls the text.
    pub value: &'static str,
    /// What `--help` tells of it.
    pub help: &'static str,
}

/// The option for the file in which a volume is kept, which each program has that keeps one.
pub const IMAGE: TextOption = TextOption {
    name: "image",
    value: "FILE",
    help: "Loads the volume from FILE where there is one, with its segments and numbers, and saves it there at the end",
};

impl TextOption {
    /// The option for the command line.
    pub fn arg<'a>(self, alloc: Global) -> Arg<'a>
        ensures rule { rule_of result ≡ text_rule self }
        ensures value { result.val_names ≡ One self.value }
        ensures help { result.help ≡ Some self.help }
    {
        Arg::new(alloc, self.name)
            .long(self.name)
            .value_name(self.value)
            .action(ArgAction::Set)
            .help(self.help)
    }

    /// The text that the matches have for it, where it is given.
    pub fn text<'a>(&self, matches: &ArgMatches<'a>) -> Option<&'a str>
        ensures { option_map (λ text. text.now) result
            ≡ first_value (found_of matches.now) self.now.name.now }
    {
        matches.get_str(self.name)
    }
}
