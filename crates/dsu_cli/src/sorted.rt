ghost use Rattle.std.specs.Prelude.{◌≡◌, IfOk, List, false, map};
ghost use Rattle.clap.specs.Words.{app_of, rule_of};
ghost use Rattle.dsu_cli.specs.Words.{Item};
ghost use Rattle.dsu_cli.specs.Sorted.{AreKnown, Sorts, app, files_rule, option_rule, switch_rule};

use clap::error::ErrorKind;
use clap::{Arg, ArgAction, ArgMatches, Command};
use std::alloc::{AllocError, Global};

/// The words by their names: `files` has the positionals. It fails only when out of memory.
pub fn sorted<'a>(alloc: Global, words: &'a [&'a str]) -> Result<ArgMatches<'a>, AllocError>
    requires { (its : List Item) × AreKnown (map (λ word. word.now) words.now) its }
    ensures { IfOk result (λ matches. (its : List Item) → AreKnown (map (λ word. word.now) words.now) its → Sorts its matches) }
{
    match parser(alloc)?.try_get_matches_from(words) {
        Ok(matches) => Ok(matches),
        Err(error) => {
            let is_memory = matches!(error.kind(), ErrorKind::OutOfMemory);
            prove!(is_memory);
            Err(AllocError)
        }
    }
}

/// The words of any command: its positionals, and the options of all commands, each as often as it stands.
fn parser<'a>(alloc: Global) -> Result<Command<'a>, AllocError>
    ensures { IfOk result (λ command. app_of command ≡ app) }
{
    Command::new(alloc, "ginseng")
        .no_binary_name(true)
        .disable_help_flag(true)
        .arg(files(alloc))?
        .arg(option(alloc, "offer"))?
        .arg(option(alloc, "workers"))?
        .arg(option(alloc, "moves"))?
        .arg(option(alloc, "objects"))?
        .arg(option(alloc, "engine"))?
        .arg(switch(alloc, "journal"))?
        .arg(switch(alloc, "explain"))
}

fn files<'a>(alloc: Global) -> Arg<'a>
    ensures rule { rule_of result ≡ files_rule }
    ensures local { result.global ≡ false }
{
    Arg::new(alloc, "files").action(ArgAction::Append)
}

fn option<'a>(alloc: Global, name: &'a str) -> Arg<'a>
    ensures rule { rule_of result ≡ option_rule name.now }
    ensures local { result.global ≡ false }
{
    Arg::new(alloc, name).long(name).action(ArgAction::Append)
}

fn switch<'a>(alloc: Global, name: &'a str) -> Arg<'a>
    ensures rule { rule_of result ≡ switch_rule name.now }
    ensures local { result.global ≡ false }
{
    option(alloc, name)
        .num_args(0)
        .default_missing_value("true")
}
