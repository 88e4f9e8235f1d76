//! Words of a command line that stand without the name of an option.

ghost use Rattle.std.specs.Prelude.{◌≡◌, Some, option_map};
ghost use Rattle.clap.specs.Matches.{first_value, found_of};
ghost use Rattle.clap.specs.Walk.{rule_of};
ghost use Rattle.clap.specs.declared.builder.texts.Texts.TheVariants.{One};
ghost use Rattle.lfs_command.specs.Options.{operand_rule};

use clap::{Arg, ArgAction, ArgMatches};
use std::alloc::Global;

/// A word that stands without the name of an option.
#[derive(Clone, Copy)]
pub struct Operand {
    /// The name by which it is read back.
    pub name: &'static str,
    /// What `--help` calls it.
    pub value: &'static str,
    /// What `--help` tells of it.
    pub help: &'static str,
}

impl Operand {
    /// The word for the command line.
    pub fn arg<'a>(self, alloc: Global) -> Arg<'a>
        ensures rule { rule_of result ≡ operand_rule self }
        ensures value { result.val_names ≡ One self.value }
        ensures help { result.help ≡ Some self.help }
    {
        Arg::new(alloc, self.name)
            .value_name(self.value)
            .action(ArgAction::Set)
            .help(self.help)
    }

    /// The word that the matches have for it, where it is given.
    pub fn text<'a>(&self, matches: &ArgMatches<'a>) -> Option<&'a str>
        ensures { option_map (λ text. text.now) result
            ≡ first_value (found_of matches.now) self.now.name.now }
    {
        matches.get_str(self.name)
    }
}
