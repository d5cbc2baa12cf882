//! That `dsu_cli` reads words as the list of commands says: words that fit, words one step from them,
//! and as many offers as there may be, with answers written by hand.
//!
//! A row is words that single blanks separate (two blanks make an empty word), and, of words that fit, ` => ` and the job that
//! they name, with ` explained` behind it where it is to be explained. `¶` separates rows. A table of as many texts as there
//! are rows would be dear to prove.
use dsu_cli::{CliFault, Detail, EngineKind, Job, Offer, ReplayJob, Request, RunJob, read_words};
use dsu_io::Text;
use std::alloc::{AllocError, Global};
use std::process::Abort;

fn words_of(alloc: Global, text: &str) -> Result<Vec<Text>, AllocError> {
    let mut words = Vec::new(alloc);
    for word in text.split(' ') {
        words.push(Text::of(alloc, word)?)?;
    }
    Ok(words)
}

/// Adds offers, each by its file and lines, and a full stop.
fn push_offers(alloc: Global, shown: &mut String, offers: &[Offer]) -> Option<()> {
    for offer in offers {
        let (file, lines) = (offer.file.as_str(), offer.lines);
        let one = format!(in alloc; ", {file} after {lines}").ok()?;
        shown.push_str(&one).ok()?;
    }
    shown.push_str(".").ok()
}

/// The name of an engine.
fn engine_shown(engine: EngineKind) -> &'static str {
    match engine {
        EngineKind::Compiled => "compiled",
        EngineKind::Plain => "plain",
    }
}

/// A run: its file, workers, moves, objects and engine, whether it has a journal, and its offers.
fn run_shown(alloc: Global, job: &RunJob) -> Option<String> {
    let (file, workers, journal) = (job.file.as_str(), job.workers, job.journal);
    let (moves, objects, engine) = (job.moves, job.objects, engine_shown(job.engine));
    let mut shown = format!(in alloc;
        "run {file} {workers:?} {moves} {objects} {engine} {journal}"
    ).ok()?;
    push_offers(alloc, &mut shown, job.offers.as_slice())?;
    Some(shown)
}

/// A replay: its file, journal, objects, engine and offers.
fn replay_shown(alloc: Global, job: &ReplayJob) -> Option<String> {
    let (file, journal, objects) = (job.file.as_str(), job.journal.as_str(), job.objects);
    let engine = engine_shown(job.engine);
    let mut shown = format!(in alloc; "replay {file} {journal} {objects} {engine}").ok()?;
    push_offers(alloc, &mut shown, job.offers.as_slice())?;
    Some(shown)
}

/// A job of one file or two.
fn files_shown(
    alloc: Global,
    command: &str,
    first: &Text,
    second: Option<&Text>,
) -> Option<String> {
    let first = first.as_str();
    match second {
        Some(second) => {
            let second = second.as_str();
            format!(in alloc; "{command} {first} {second}.").ok()
        }
        None => format!(in alloc; "{command} {first}.").ok(),
    }
}

/// A job, printed.
fn job_shown(alloc: Global, job: &Job) -> Option<String> {
    match job {
        Job::Run(job) => run_shown(alloc, job),
        Job::Replay(job) => replay_shown(alloc, job),
        Job::Check(file) => files_shown(alloc, "check", file, None),
        Job::Effects(file) => files_shown(alloc, "effects", file, None),
        Job::Changes(old, new) => files_shown(alloc, "changes", old, Some(new)),
        Job::Admits(old, new) => files_shown(alloc, "admits", old, Some(new)),
        Job::Gen(seed, size, engine) => {
            let engine = engine_shown(*engine);
            format!(in alloc; "gen {seed} {size} {engine}.").ok()
        }
    }
}

/// A request, printed: its job, and whether it is explained.
fn request_shown(alloc: Global, request: &Request) -> Option<String> {
    let mut shown = job_shown(alloc, &request.job)?;
    if let Detail::Explained = request.detail {
        shown.push_str(" explained").ok()?;
    }
    Some(shown)
}

/// What some words ask for.
fn request_of(alloc: Global, words: &[Text]) -> Result<Request, CliFault> {
    read_words(alloc, words)
}

/// Whether a row's words ask for what it says.
fn is_named(alloc: Global, row: &str) -> Option<bool> {
    let (text, want) = row.split_once(" => ")?;
    let words = words_of(alloc, text).ok()?;
    let request = request_of(alloc, &words).ok()?;
    let shown = request_shown(alloc, &request);
    drop(request);
    Some(shown?.as_str() == want)
}

/// Stops the test at the first row whose words name something else.
fn are_named(rt: &impl Abort, alloc: Global, rows: &str) {
    for row in rows.split('¶') {
        assert!(rt; is_named(alloc, row) == Some(true), "{row}");
    }
}

static RUNS: &str = "\
    run a.c => run a.c None 1000000 4096 compiled false.¶\
    run run => run run None 1000000 4096 compiled false.¶\
    run a=b => run a=b None 1000000 4096 compiled false.¶\
    run @ => run @ None 1000000 4096 compiled false.¶\
    run a.c --journal => run a.c None 1000000 4096 compiled true.¶\
    run --journal a.c => run a.c None 1000000 4096 compiled true.¶\
    run a.c --workers 1 => run a.c Some(1) 1000000 4096 compiled false.¶\
    run a.c --workers=8 => run a.c Some(8) 1000000 4096 compiled false.¶\
    run --workers 0000002 a.c => run a.c Some(2) 1000000 4096 compiled false.¶\
    run a.c --moves 1 => run a.c None 1 4096 compiled false.¶\
    run a.c --moves=1600000 => run a.c None 1600000 4096 compiled false.¶\
    run --moves 0000004 a.c => run a.c None 4 4096 compiled false.¶\
    run a.c --objects 1 => run a.c None 1000000 1 compiled false.¶\
    run a.c --objects=65536 => run a.c None 1000000 65536 compiled false.¶\
    run a.c --offer b.c@0 => run a.c None 1000000 4096 compiled false, b.c after 0.¶\
    run a.c --offer=b.c@1000000 => run a.c None 1000000 4096 compiled false, b.c after 1000000.¶\
    run --offer b.c@0000007 a.c => run a.c None 1000000 4096 compiled false, b.c after 7.¶\
    run a.c --offer b.c@3 --offer=c.c@0 => run a.c None 1000000 4096 compiled false, b.c after 3, c.c after 0.¶\
    run --offer=c.c@0 a.c --offer b.c@3 => run a.c None 1000000 4096 compiled false, c.c after 0, b.c after 3.¶\
    run a.c --offer b.c@3 --offer b.c@3 => run a.c None 1000000 4096 compiled false, b.c after 3, b.c after 3.¶\
    run a.c --offer=b@c@7 => run a.c None 1000000 4096 compiled false, b@c after 7.¶\
    run a.c --offer b@@7 => run a.c None 1000000 4096 compiled false, b@ after 7.¶\
    run a.c --offer @@7 => run a.c None 1000000 4096 compiled false, @ after 7.¶\
    run a.c --offer=b=c@7 => run a.c None 1000000 4096 compiled false, b=c after 7.¶\
    run a.c --offer b--c@7 => run a.c None 1000000 4096 compiled false, b--c after 7.¶\
    run --workers 2 a.c --moves=5 --objects 6 --journal --offer b.c@1 => run a.c Some(2) 5 6 compiled true, b.c after 1.¶\
    run --offer b.c@1 --journal --objects=6 --moves 5 --offer=c.c@2 --workers=3 a.c => run a.c Some(3) 5 6 compiled true, b.c after 1, c.c after 2.¶\
    run a.c --moves 4096 --objects 4096 => run a.c None 4096 4096 compiled false.¶\
    run offer --journal => run offer None 1000000 4096 compiled true.¶\
    run journal => run journal None 1000000 4096 compiled false.¶\
    run files --offer files@1 => run files None 1000000 4096 compiled false, files after 1.¶\
    run a.c --workers 1 --moves 1 --objects 1 => run a.c Some(1) 1 1 compiled false.¶\
    run a.c --explain => run a.c None 1000000 4096 compiled false. explained¶\
    run --explain a.c --journal => run a.c None 1000000 4096 compiled true. explained¶\
    run --journal --explain --moves=5 a.c --offer b.c@1 => run a.c None 5 4096 compiled true, b.c after 1. explained¶\
    run explain => run explain None 1000000 4096 compiled false.¶\
    run a.c --engine compiled => run a.c None 1000000 4096 compiled false.¶\
    run a.c --engine plain => run a.c None 1000000 4096 plain false.¶\
    run --engine=plain a.c => run a.c None 1000000 4096 plain false.¶\
    run --engine=compiled --journal a.c => run a.c None 1000000 4096 compiled true.¶\
    run a.c --offer b.c@1 --engine plain --objects 2 => run a.c None 1000000 2 plain false, b.c after 1.¶\
    run plain --engine plain --explain => run plain None 1000000 4096 plain false. explained¶\
    run engine => run engine None 1000000 4096 compiled false.";

#[test]
fn words_name_their_runs(rt: HostRuntime) {
    are_named(&rt, rt.alloc(), RUNS);
}

static OTHERS: &str = "\
    replay a.c a.j => replay a.c a.j 4096 compiled.¶\
    replay a.j a.c => replay a.j a.c 4096 compiled.¶\
    replay a.c --objects 9 a.j => replay a.c a.j 9 compiled.¶\
    replay --offer=b.c@2 a.c a.j --offer c.c@1 => replay a.c a.j 4096 compiled, b.c after 2, c.c after 1.¶\
    replay a.c --offer b@c@2 a.j --objects=65536 => replay a.c a.j 65536 compiled, b@c after 2.¶\
    check a.c => check a.c.¶\
    check check => check check.¶\
    effects a.c => effects a.c.¶\
    changes a.c b.c => changes a.c b.c.¶\
    changes b.c a.c => changes b.c a.c.¶\
    changes a.c a.c => changes a.c a.c.¶\
    admits a.c b.c => admits a.c b.c.¶\
    admits b.c a.c => admits b.c a.c.¶\
    admits admits changes => admits admits changes.¶\
    gen 7 200 => gen 7 200 compiled.¶\
    gen 0 1 => gen 0 1 compiled.¶\
    gen 9223372036854775807 2 => gen 9223372036854775807 2 compiled.¶\
    gen 0000000000000000007 0000003 => gen 7 3 compiled.¶\
    gen 1 7 => gen 1 7 compiled.¶\
    replay --explain a.c a.j => replay a.c a.j 4096 compiled. explained¶\
    replay a.c a.j --objects 9 --explain => replay a.c a.j 9 compiled. explained¶\
    check a.c --explain => check a.c. explained¶\
    check explain => check explain.¶\
    effects --explain a.c => effects a.c. explained¶\
    changes a.c --explain b.c => changes a.c b.c. explained¶\
    admits --explain a.c b.c => admits a.c b.c. explained¶\
    gen 7 --explain 200 => gen 7 200 compiled. explained¶\
    replay a.c a.j --engine compiled => replay a.c a.j 4096 compiled.¶\
    replay --engine=plain a.c --objects 9 a.j --offer b.c@2 => replay a.c a.j 9 plain, b.c after 2.¶\
    gen 7 200 --engine compiled => gen 7 200 compiled.¶\
    gen --engine=plain 7 200 --explain => gen 7 200 plain. explained¶\
    gen 7 --engine plain 3 => gen 7 3 plain.";

#[test]
fn words_name_their_other_jobs(rt: HostRuntime) {
    are_named(&rt, rt.alloc(), OTHERS);
}

/// Words that fit no line, most of them one step from words that do.
static WRONG: [&str; 6] = [
    "\
    ¶\
    \x20run a.c¶\
    help¶\
    --help¶\
    --version¶\
    -h¶\
    Run a.c¶\
    ru a.c¶\
    runs a.c¶\
    --run a.c¶\
    run¶\
    run ¶\
    run -¶\
    run --¶\
    run -- a.c¶\
    run a.c --¶\
    run a.c -¶\
    run a.c ¶\
    run -a.c¶\
    run a.c b.c¶\
    run --help¶\
    run a.c --help¶\
    run a.c --version¶\
    run a.c -h¶\
    run a.c --journal=x¶\
    run a.c --journal=¶\
    run a.c --journal x¶\
    run a.c --journal --journal¶\
    run --explain¶\
    run a.c --explain=x¶\
    run a.c --explain=¶\
    run a.c --explain x¶\
    run a.c --explain --explain¶\
    run a.c --explain --journal --explain¶\
    run a.c --explains¶\
    run a.c --Explain¶\
    run a.c -explain¶\
    --explain run a.c",
    // Workers.
    "\
    run a.c --workers¶\
    run a.c --workers=¶\
    run a.c --workers ¶\
    run a.c --workers 0¶\
    run a.c --workers 9¶\
    run a.c --workers 00000001¶\
    run a.c --workers 1 --workers 2¶\
    run a.c --workers=1 --workers=1¶\
    run a.c --workers -1¶\
    run a.c --workers=-1¶\
    run a.c --workers +1¶\
    run a.c --workers 1x¶\
    run a.c --workers x¶\
    run a.c --workers 0x1¶\
    run a.c --workers=1=1¶\
    run a.c --workers --journal¶\
    run a.c --workers --explain¶\
    run a.c --workers --moves 1¶\
    run --workers a.c",
    // Moves and objects.
    "\
    run a.c --moves¶\
    run a.c --moves 0¶\
    run a.c --moves=1600001¶\
    run a.c --moves 01600000¶\
    run a.c --moves 10000000¶\
    run a.c --moves 2 --moves=2¶\
    run a.c --moves 1.0¶\
    run a.c --objects 0¶\
    run a.c --objects 65537¶\
    run a.c --objects 1 --objects=1",
    // Engines.
    "\
    run a.c --engine¶\
    run a.c --engine=¶\
    run a.c --engine ¶\
    run --engine a.c¶\
    run a.c --engine fast¶\
    run a.c --engine Plain¶\
    run a.c --engine plains¶\
    run a.c --engine plai¶\
    run a.c --engine -plain¶\
    run a.c --engine compile¶\
    run a.c --engine=compiled=plain¶\
    run a.c --engine --journal¶\
    run a.c --engine plain --engine plain¶\
    run a.c --engine=plain --engine compiled¶\
    run a.c --engines plain¶\
    run a.c --Engine plain¶\
    run a.c -engine plain¶\
    run a.c plain¶\
    run a.c --plain¶\
    replay a.c a.j --engine¶\
    replay a.c a.j --engine tree¶\
    replay a.c a.j --engine=plain --engine=plain¶\
    check a.c --engine plain¶\
    effects a.c --engine=compiled¶\
    changes a.c b.c --engine plain¶\
    admits a.c b.c --engine compiled¶\
    gen 7 200 --engine¶\
    gen 7 200 --engine code¶\
    gen 7 200 --engine 1¶\
    gen 7 200 --engine plain --engine plain¶\
    gen 7 200 --objects 1",
    // Offers.
    "\
    run a.c --offer¶\
    run a.c --offer b.c¶\
    run a.c --offer=b.c¶\
    run a.c --offer b.c@¶\
    run a.c --offer @3¶\
    run a.c --offer=@¶\
    run a.c --offer= b.c@3¶\
    run a.c --offer b.c@1000001¶\
    run a.c --offer b.c@00000001¶\
    run a.c --offer b.c@-1¶\
    run a.c --offer b.c@+1¶\
    run a.c --offer -b.c@1¶\
    run a.c --offer=-b.c@1¶\
    run a.c --offer=a@1=2¶\
    run a.c --offer --offer=a@1¶\
    run a.c --offer b.c@3@¶\
    run a.c --offer b.c@3@x¶\
    run a.c --offers b.c@1¶\
    run a.c --offe b.c@1¶\
    run a.c --Offer b.c@1¶\
    run a.c ---offer b.c@1¶\
    run a.c --=x¶\
    run a.c -offer b.c@1¶\
    run a.c --files b.c",
    // Other commands.
    "\
    replay a.c¶\
    replay¶\
    replay a.c a.j b.j¶\
    replay a.c ¶\
    replay a.c -a.j¶\
    replay a.c a.j --workers 2¶\
    replay a.c a.j --moves=2¶\
    replay a.c a.j --journal¶\
    replay a.c a.j --objects 0¶\
    check¶\
    check a.c b.c¶\
    check --journal b.c¶\
    check -a.c¶\
    check a.c --offer b.c@1¶\
    check a.c --objects=1¶\
    effects a.c b.c¶\
    effects a.c --moves 1¶\
    changes a.c¶\
    changes a.c b.c c.c¶\
    admits¶\
    admits a.c¶\
    admits a.c b.c c.c¶\
    admits a.c -b.c¶\
    admits a.c b.c --journal¶\
    admits a.c --offer b.c@1¶\
    admit a.c b.c¶\
    gen 7¶\
    gen 7 0¶\
    gen 7 201¶\
    gen 7 00000001¶\
    gen 9223372036854775808 1¶\
    gen 00000000000000000007 1¶\
    gen -7 1¶\
    gen 7 1 1¶\
    replay a.c --explain¶\
    replay a.c a.j --explain a.j¶\
    check --explain¶\
    check a.c --explain=¶\
    check a.c --explain x¶\
    check --explain a.c --explain¶\
    effects a.c --explain=1¶\
    changes a.c --explain¶\
    changes a.c b.c --explain c.c¶\
    admits a.c b.c --explain --explain¶\
    gen 7 --explain¶\
    gen 7 1 --explain=true",
];

/// The fault of some words, where they have one.
fn fault_of(alloc: Global, text: &str) -> Result<Option<CliFault>, AllocError> {
    let words = words_of(alloc, text)?;
    Ok(request_of(alloc, &words).err())
}

/// Stops the test at the first row whose words fit a line.
fn are_wrong(rt: &impl Abort, alloc: Global, rows: &str) -> Result<(), AllocError> {
    for row in rows.split('¶') {
        assert!(rt; fault_of(alloc, row)? == Some(CliFault::Usage), "{row}");
    }
    Ok(())
}

#[test]
fn other_words_fit_no_line(rt: HostRuntime) -> Result<(), AllocError> {
    for rows in WRONG.iter() {
        are_wrong(&rt, rt.alloc(), rows)?;
    }
    assert!(rt; request_of(rt.alloc(), &[]).err() == Some(CliFault::Usage));
    Ok(())
}

/// A run of `a.c` with so many offers.
fn words_with_offers(alloc: Global, count: usize) -> Result<Vec<Text>, AllocError> {
    let mut words = words_of(alloc, "run a.c")?;
    for _ in 0..count {
        words.push(Text::of(alloc, "--offer=b.c@1")?)?;
    }
    Ok(words)
}

#[test]
fn a_run_has_at_most_63_offers(rt: HostRuntime) -> Result<(), AllocError> {
    let words = words_with_offers(rt.alloc(), 63)?;
    let most = request_of(rt.alloc(), &words);
    assert!(rt;
        matches!(&most, Ok(Request { job: Job::Run(job), .. }) if job.offers.as_slice().len() == 63)
    );
    Ok(())
}

#[test]
fn a_run_has_no_64_offers(rt: HostRuntime) -> Result<(), AllocError> {
    let words = words_with_offers(rt.alloc(), 64)?;
    let more = request_of(rt.alloc(), &words).err();
    assert!(rt; more == Some(CliFault::Usage));
    Ok(())
}
