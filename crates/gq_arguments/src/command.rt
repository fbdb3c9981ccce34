//! The command as `clap` reads it: four options, each with a value, and neither help nor version.

ghost use Rattle.std.specs.Prelude.{◌≡◌, false, IfOk};
ghost use Rattle.clap.specs.Words.{app_of, rule_of};
ghost use Rattle.gq_arguments.specs.Command.{option_rule, the_command, usage_text};

use clap::builder::ValueParser;
use clap::{Arg, ArgAction, Command, value_parser};
use std::alloc::{AllocError, Global};

// An option `--NAME VALUE`.
fn option<'a>(alloc: Global, name: &'a str, values: ValueParser<'a>) -> Arg<'a>
    ensures rule { rule_of result ≡ option_rule name.entry.now values.entry }
    ensures local { result.global ≡ false }
{
    Arg::new(alloc, name)
        .long(name)
        .action(ArgAction::Set)
        .value_parser(values)
}

/// The command. Which orders there are is said where they are read.
pub fn command<'a>(alloc: Global) -> Result<Command<'a>, AllocError>
    ensures { IfOk result (λ c. app_of c ≡ the_command) }
{
    let count = value_parser!(u32).range(1..=1_000_000);
    let limit = value_parser!(u32).range(1..=16_777_216);
    Command::new(alloc, "graphq")
        .disable_help_flag(true)
        .disable_version_flag(true)
        .arg(option(alloc, "manifest", ValueParser::String))?
        .arg(option(alloc, "sample", count))?
        .arg(option(alloc, "order", ValueParser::String))?
        .arg(option(alloc, "rows", limit))
}

/// The line for arguments that are no use of the program.
pub fn usage() -> &'static [u8]
    ensures { result.now ≡ usage_text }
{
    b"usage: graphq (--manifest PATH | --sample N) [--order given|greedy|least] [--rows N]\n"
}
