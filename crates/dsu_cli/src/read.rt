ghost use Rattle.std.specs.Prelude.{◌≡◌, ◌<◌, ◌≤◌, ◌^◌, IfOk, IsErrOf, ◌↔◌, List, None, Some, codes, length, map, nat_lt, option_map, slice_get, true};
ghost use Rattle.std.specs.List.{filter_map, list_all};
ghost use Rattle.std.specs.Option.{option_map_or};
ghost use Rattle.std.specs.Str.Parse.{digits_value};
ghost use Rattle.dsu_cli.specs.Words.{Item, detail_of, detail_of_items, is_number, is_offer, items, job_of, line, offer_of};
ghost use Rattle.dsu_cli.specs.declared.job.Detail.TheVariants.{Plain};
ghost use Rattle.dsu_cli.specs.Fit.{fits_items, job_of_items};
ghost use Rattle.dsu_cli.specs.Sorted.{IsJobOf, IsRead, Sorts, engine_given, given};

use crate::command::{Command, MOST_SEED, MOST_SIZE, SEED_DIGITS};
use crate::fit::fit;
use crate::job::{CliFault, Detail, EngineKind, Job, Offer, ReplayJob, Request, RunJob};
use crate::number::{DIGITS, number};
use crate::setting::{
    MOST_LINES, MOST_MOVES, MOST_OBJECTS, MOST_WORKERS, engine_named, file_and_lines,
};
use crate::sorted::sorted;
use clap::ArgMatches;
use dsu_io::{List, Text};
use std::alloc::{AllocError, Global};

const DEFAULT_MOVES: u32 = 1_000_000;

const DEFAULT_OBJECTS: u32 = 4096;

const DEFAULT_ENGINE: EngineKind = EngineKind::Compiled;

/// The job that the words after the program's name ask for, and whether they ask for it to be explained.
///
/// `Usage` comes where they fit no line of the definition, before any memory is taken; `Memory` where it is
/// refused for words that fit.
pub fn read_words(alloc: Global, words: &[Text]) -> Result<Request, CliFault>
    ensures job { IfOk result (λ request. job_of words.now ≡ Some request.job) }
    ensures detail { IfOk result (λ request. detail_of words.now ≡ request.detail) }
    ensures usage { IsErrOf result CliFault.Usage ↔ (job_of words.now ≡ None) }
{
    let Some((name, words)) = words.split_first() else {
        return Err(CliFault::Usage);
    };
    let Some(command) = Command::of(name.as_str()) else {
        return Err(CliFault::Usage);
    };
    if !fit(command, words) {
        return Err(CliFault::Usage);
    }
    match read(alloc, command, words) {
        Ok(request) => Ok(request),
        Err(_) => Err(CliFault::Memory),
    }
}

/// What words that fit ask for.
fn read(alloc: Global, command: Command, words: &[Text]) -> Result<Request, AllocError>
    requires { fits_items (line command) (items None words.now) ≡ true }
    ensures job { IfOk result (λ request. job_of_items command (items None words.now) ≡ Some request.job) }
    ensures detail { IfOk result (λ request. option_map_or detail_of_items (items None words.now) Plain ≡ request.detail) }
{
    let mut texts = Vec::new(alloc);
    for word in words {
        texts.push(word.as_str())?;
    }
    let matches = sorted(alloc, texts.as_slice())?;
    Ok(Request {
        job: job(alloc, command, &matches)?,
        detail: detail(&matches),
    })
}

fn job(alloc: Global, command: Command, matches: &ArgMatches<'_>) -> Result<Job, AllocError>
    requires { IsRead command matches.now }
    ensures { IfOk result (IsJobOf command matches.now) }
{
    match command {
        Command::Run => Ok(Job::Run(RunJob {
            file: file(alloc, matches, 0)?,
            offers: offers(alloc, matches)?,
            workers: number_of(matches, "workers", MOST_WORKERS),
            moves: number_of(matches, "moves", MOST_MOVES).unwrap_or(DEFAULT_MOVES),
            objects: number_of(matches, "objects", MOST_OBJECTS).unwrap_or(DEFAULT_OBJECTS),
            engine: engine(matches),
            journal: is_used(matches, "journal"),
        })),
        Command::Replay => Ok(Job::Replay(ReplayJob {
            file: file(alloc, matches, 0)?,
            journal: file(alloc, matches, 1)?,
            offers: offers(alloc, matches)?,
            objects: number_of(matches, "objects", MOST_OBJECTS).unwrap_or(DEFAULT_OBJECTS),
            engine: engine(matches),
        })),
        Command::Check => Ok(Job::Check(file(alloc, matches, 0)?)),
        Command::Effects => Ok(Job::Effects(file(alloc, matches, 0)?)),
        Command::Changes => Ok(Job::Changes(file(alloc, matches, 0)?, file(alloc, matches, 1)?)),
        Command::Admits => Ok(Job::Admits(file(alloc, matches, 0)?, file(alloc, matches, 1)?)),
        Command::Gen => {
            let seed = known_number(positional(matches, 0), SEED_DIGITS, 0, MOST_SEED);
            let size = known_number(positional(matches, 1), DIGITS, 1, MOST_SIZE);
            Ok(Job::Gen(seed, size as u32, engine(matches)))
        }
    }
}

/// Explained where the words use `--explain`.
fn detail(matches: &ArgMatches<'_>) -> Detail
    ensures { (its : List Item) → Sorts its matches.now → detail_of_items its ≡ result }
{
    if is_used(matches, "explain") {
        Detail::Explained
    } else {
        Detail::Plain
    }
}

/// The positional at this place, counted from 0.
fn positional<'a>(matches: &ArgMatches<'a>, at: usize) -> &'a str
    requires { at < length (given (codes "files") matches.now) }
    ensures { slice_get (given (codes "files") matches.now) at ≡ Some result.now }
{
    matches.get_raw("files").unwrap()[at]
}

fn file(alloc: Global, matches: &ArgMatches<'_>, at: usize) -> Result<Text, AllocError>
    requires { at < length (given (codes "files") matches.now) }
    ensures { IfOk result (λ file. slice_get (given (codes "files") matches.now) at ≡ Some file) }
{
    Text::of(alloc, positional(matches, at))
}

/// The number that a word is known to be.
fn known_number(word: &str, digits: usize, least: u64, most: u64) -> u64
    requires { is_number digits least most word.now ≡ true }
    ensures value { result ≡ digits_value 10 word.now }
    ensures bound { result ≤ most }
{
    number(word, digits, least, most).unwrap()
}

/// The number that is an option's value, where it stands.
fn number_of(matches: &ArgMatches<'_>, id: &str, most: u64) -> Option<u32>
    requires known { list_all (is_number 7 1 most) (given id.now matches.now) ≡ true }
    requires bound { most < 2 ^ 32 }
    ensures { result ≡ option_map (digits_value 10) (slice_get (given id.now matches.now) 0) }
{
    match matches.get_str(id) {
        Some(word) => Some(known_number(word, DIGITS, 1, most) as u32),
        None => None,
    }
}

/// The engine that the words name; the compiled one where they name none.
fn engine(matches: &ArgMatches<'_>) -> EngineKind
    ensures { result ≡ engine_given matches.now }
{
    match matches.get_str("engine") {
        Some(name) => engine_named(name).unwrap_or(DEFAULT_ENGINE),
        None => DEFAULT_ENGINE,
    }
}

/// Whether the words use an option.
fn is_used(matches: &ArgMatches<'_>, id: &str) -> bool
    ensures { result ≡ nat_lt 0 (length (given id.now matches.now)) }
{
    matches.get_str(id).is_some()
}

fn offers(alloc: Global, matches: &ArgMatches<'_>) -> Result<List<Offer>, AllocError>
    requires { list_all is_offer (given (codes "offer") matches.now) ≡ true }
    ensures { IfOk result (λ offers. offers ≡ filter_map offer_of (given (codes "offer") matches.now)) }
{
    match matches.get_raw("offer") {
        Some(values) => offers_of(alloc, values),
        None => Ok(List::of(Vec::new(alloc))),
    }
}

fn offers_of(alloc: Global, values: &[&str]) -> Result<List<Offer>, AllocError>
    requires { list_all is_offer (map (λ value. value.now) values.now) ≡ true }
    ensures { IfOk result (λ offers. offers ≡ filter_map offer_of (map (λ value. value.now) values.now)) }
{
    let mut offers = Vec::new(alloc);
    for value in values {
        offers.push(offer(alloc, value)?)?;
    }
    Ok(List::of(offers))
}

fn offer(alloc: Global, value: &str) -> Result<Offer, AllocError>
    requires { is_offer value.now ≡ true }
    ensures { IfOk result (λ offer. offer_of value.now ≡ Some offer) }
{
    let (file, lines) = file_and_lines(value).unwrap();
    Ok(Offer {
        file: Text::of(alloc, file)?,
        lines: known_number(lines, DIGITS, 0, MOST_LINES) as u32,
    })
}
