//! Options that are given or not.

ghost use Rattle.std.specs.Prelude.{◌≡◌, Some};
ghost use Rattle.clap.specs.Walk.{rule_of};
ghost use Rattle.lfs_command.specs.Options.{flag_rule};

use clap::{Arg, ArgAction};
use std::alloc::Global;

/// An option that takes no value: it is given, or it isn't.
#[derive(Clone, Copy)]
pub struct FlagOption {
    /// Its name.
    pub name: &'static str,
    /// What `--help` tells of it.
    pub help: &'static str,
}

/// The option for summaries with serials, which each program has that lays a volume out and keeps it.
pub const SERIALS: FlagOption = FlagOption {
    name: "serials",
    help: "Gives each summary of a fresh volume a serial, by which lfs_check --recover finds the volume in its blocks",
};

impl FlagOption {
    /// The option for the command line.
    pub fn arg<'a>(self, alloc: Global) -> Arg<'a>
        ensures rule { rule_of result ≡ flag_rule self }
        ensures help { result.help ≡ Some self.help }
    {
        Arg::new(alloc, self.name)
            .long(self.name)
            .action(ArgAction::SetTrue)
            .help(self.help)
    }
}
