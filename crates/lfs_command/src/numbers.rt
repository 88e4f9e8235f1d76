//! Options that take a number.

ghost use Rattle.std.specs.Prelude.{◌≡◌, IfOk, Some};
ghost use Rattle.clap.specs.Walk.{rule_of};
ghost use Rattle.lfs_command.specs.Options.{number_rule};
ghost use Rattle.lfs_command.specs.Ranges.{IsBetween};

use clap::builder::ValueParser;
use clap::{Arg, ArgMatches};
use std::alloc::Global;

/// An option that takes a number.
#[derive(Clone, Copy)]
pub struct NumberOption {
    /// Its name.
    pub name: &'static str,
    /// The least number that it takes.
    pub least: u32,
    /// The greatest number that it takes.
    pub most: u32,
    /// The number where it is not given.
    pub default: u32,
    /// What `--help` tells of it.
    pub help: &'static str,
    /// What is told of a number that begins with a sign.
    pub refusal: &'static str,
}

impl NumberOption {
    /// The option for the command line.
    pub fn arg<'a>(self, alloc: Global) -> Arg<'a>
        ensures rule { rule_of result ≡ number_rule self }
        ensures help { result.help ≡ Some self.help }
    {
        Arg::new(alloc, self.name)
            .long(self.name)
            .value_name("N")
            .value_parser(ValueParser::Unsigned(u64::from(self.least), u64::from(self.most)))
            .help(self.help)
    }

    /// The number that the matches ask for, its default where it is not given, or what is told where
    /// it is refused: it begins with a sign. The parser has read it as a number in its range, which
    /// no clause of its says.
    pub fn number(&self, matches: &ArgMatches<'_>) -> Result<u32, &'static str>
        requires { IsBetween self.now.least self.now.most self.now.default }
        ensures { IfOk result (IsBetween self.now.least self.now.most) }
    {
        if has_sign(matches, self.name) {
            return Err(self.refusal);
        }
        match matches.get_one::<u32>(self.name) {
            None => Ok(self.default),
            Some(number) if self.least <= number && number <= self.most => Ok(number),
            Some(_) => Err(self.refusal),
        }
    }
}

/// Whether the value of an argument begins with a sign.
fn has_sign(matches: &ArgMatches<'_>, name: &str) -> bool {
    match matches.get_str(name) {
        Some(text) => text.starts_with('+'),
        None => false,
    }
}
