ghost use Rattle.std.specs.Prelude.{◌≡◌, drop, length};
ghost use Rattle.dsu_cli.specs.Words.{command_of, item_fits, line};
ghost use Rattle.dsu_cli.specs.Fit.{has, next_fits, use_of};

use crate::number::{DIGITS, is_number};
use crate::setting::{Setting, Switch, is_value};

/// The most digits of a seed.
pub const SEED_DIGITS: usize = 19;

/// The greatest seed.
pub const MOST_SEED: u64 = i64::MAX as u64;

/// The greatest size of a made-up program.
pub const MOST_SIZE: u64 = 200;

/// The commands, by their first word.
#[derive(Clone, Copy)]
pub enum Command {
    Run,
    Replay,
    Check,
    Effects,
    Changes,
    Admits,
    Gen,
}

impl Command {
    /// The command of this name.
    pub fn of(name: &str) -> Option<Command>
        ensures { result ≡ command_of name.now }
    {
        match name {
            "run" => Some(Command::Run),
            "replay" => Some(Command::Replay),
            "check" => Some(Command::Check),
            "effects" => Some(Command::Effects),
            "changes" => Some(Command::Changes),
            "admits" => Some(Command::Admits),
            "gen" => Some(Command::Gen),
            _ => None,
        }
    }

    /// Whether it has this option with a value.
    pub fn has(self, setting: Setting) -> bool
        ensures { result ≡ has self setting }
    {
        match (self, setting) {
            (Command::Run, _) => true,
            (Command::Replay, Setting::Offer | Setting::Objects | Setting::Engine) => true,
            (Command::Gen, Setting::Engine) => true,
            _ => false,
        }
    }

    /// Whether it has this option without a value.
    pub fn has_switch(self, switch: Switch) -> bool
        ensures { result ≡ item_fits (line self) (use_of switch) }
    {
        match switch {
            Switch::Journal => matches!(self, Command::Run),
            Switch::Explain => true,
        }
    }

    /// Whether the word can be the positional at this place, counted from 0.
    pub fn takes_positional(self, at: usize, word: &str) -> bool
        ensures { result ≡ next_fits (drop at (line self).positionals) word.now }
    {
        match (self, at) {
            (Command::Run | Command::Check | Command::Effects, 0) => is_value(word),
            (Command::Replay | Command::Changes | Command::Admits, 0 | 1) => is_value(word),
            (Command::Gen, 0) => is_number(word, SEED_DIGITS, 0, MOST_SEED),
            (Command::Gen, 1) => is_number(word, DIGITS, 1, MOST_SIZE),
            _ => false,
        }
    }

    /// How many positionals it names.
    pub fn positionals(self) -> usize
        ensures { result ≡ length (line self).positionals }
    {
        match self {
            Command::Run | Command::Check | Command::Effects => 1,
            Command::Replay | Command::Changes | Command::Admits | Command::Gen => 2,
        }
    }
}
