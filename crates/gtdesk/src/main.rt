//! `gtdesk` prints, for people, which elements of a record file are closed at a moment and by which rows, lists the rows of
//! a file that are at fault, says in plain English and in opening hours when a time domain holds, compares two time domains or
//! record files, makes record files of files of opening hours and of tags of ways, and draws pictures of a year.
//!
//! It writes its answer to standard output and ends with status 0, or 1 if it listed faults, or 4 if the two differ; faults of
//! a file of opening hours go to standard error. Or it writes one line to standard error, with the text at fault below it, and
//! ends with the status of its refusal: 1 if the input is refused, 2 for usage, 3 if opening, reading, writing or memory
//! failed. A warning that standard error did not take ends with 3, too, after the whole answer.
#![tactic(auto)]

ghost use Rattle.std.specs.Prelude.{◌≡◌, IfOk, IfSome};
ghost use Rattle.gtdesk_tool.specs.GivenOptions.{AreOptionsIn, AreOptionsOf, path_of};

use gtd_devices::{Host, HostOut, InputFault, Output, Waiting, read_whole};
use gtdesk_tool::{
    ConditionsPlan, ConditionsTurn, DiffPlan, Ending, Files, HoursOptions, LineRefusal, Moment,
    OnePlan, Plan, PlanOptions, ReadTable, Refusal, RefusalLines, RunRefusal, Turn, WordsRefusal,
    ZonePlan, joined, moment_in_zone, no_options, no_zone, options_given, options_of_plan, perform,
    perform_ask, perform_conditions, perform_diff, plan, read_plan_table, refused_file,
    refused_table, word_snippet, zone_path,
};
use std::fs::File;
use std::io::{BufWriter, ErrorKind, Read};
use std::process::ExitCode;
use std::time::{SystemTime, UNIX_EPOCH};
use std::{env, io};

// How many bytes are buffered before a write to standard output: as many as a pipe holds.
const OUTPUT_BUFFER: usize = 65_536;

// How many bytes the file of a time zone has at most: far more than any has.
const MOST_ZONE_BYTES: usize = 1_048_576;

/// The status of a run whose warnings were lost.
const WARNINGS_LOST: u8 = 3;

// How a run ended, and whether standard error took all its warnings.
#[derive(Clone, Copy)]
struct Ran {
    ending: Ending,
    warned: bool,
}

// How a run ended whose output for errors has failed so often.
fn ended_with(answer: Result<Ending, RunRefusal>, failures: u64) -> Result<Ran, RunRefusal> {
    match answer {
        Ok(ending) => Ok(Ran {
            ending,
            warned: failures == 0,
        }),
        Err(refusal) => Err(refusal),
    }
}

// The words after the program's name. A word that is not UTF-8 is a fault of usage.
fn words_of(rt: &HostRuntime) -> Result<Vec<String>, WordsRefusal> {
    let words = env::args(rt).map_err(|error| match error.kind() {
        ErrorKind::OutOfMemory => WordsRefusal::Memory,
        _ => WordsRefusal::Usage {
            told: "a word is no text",
            meant: None,
        },
    })?;
    words
        .skip(1)
        .collect(rt.alloc())
        .map_err(|_| WordsRefusal::Memory)
}

// The record file at the path.
fn open(rt: &HostRuntime, path: &str) -> Result<File, RunRefusal> {
    File::open(rt, path).map_err(|error| match error.kind() {
        ErrorKind::OutOfMemory => RunRefusal::Memory,
        _ => RunRefusal::Open,
    })
}

// Carries the plan out for the file of this path, from a reader to standard output.
fn print<R: Read + Drop>(rt: &HostRuntime, turn: Turn<'_>, reader: R) -> Result<Ran, RunRefusal> {
    let mut input = Host::new(Waiting::reader(reader, rt));
    let made = BufWriter::with_capacity(
        rt.alloc(),
        OUTPUT_BUFFER,
        Waiting::writer(io::writer(rt), rt),
    );
    let mut output = HostOut::new(made.map_err(|_| RunRefusal::Memory)?);
    let mut errors = HostOut::new(Waiting::writer(rt.stderr(), rt));
    let answer = perform(rt.alloc(), turn, &mut input, &mut output, &mut errors);
    ended_with(answer, errors.failures())
}

// Carries a plan out for the file of this path.
fn run_file(rt: &HostRuntime, turn: Turn<'_>) -> Result<Ran, RunRefusal> {
    match turn.path {
        "-" => print(rt, turn, rt.stdin()),
        path => print(rt, turn, open(rt, path)?),
    }
}

// Runs a plan on its files in turn, and reports why a file is refused. It stops after an output that failed.
fn run_files<'a>(
    rt: &HostRuntime,
    plan: &'a OnePlan,
    options: &'a PlanOptions<'a>,
    paths: &'a [String],
) -> ExitCode
    requires given { AreOptionsIn plan.now options.now }
{
    let mut ended = Ok(Ending::Done);
    let mut warned = true;
    for path in paths {
        let path = path.as_str();
        let answer = run_file(
            rt,
            Turn {
                plan,
                path,
                options,
            },
        );
        match answer {
            Ok(ran) => {
                warned = warned && ran.warned;
                ended = joined(ended, Ok(ran.ending));
            }
            Err(refusal) => {
                tell(rt, Refusal::Run(refusal), path, "");
                ended = joined(ended, Err(refusal));
                if refusal == RunRefusal::Write {
                    break;
                }
            }
        }
    }
    match ended {
        Ok(ending) => status_of(Ok(Ran { ending, warned })),
        Err(refusal) => status_of(Err(refusal)),
    }
}

// The table of holidays of this path, from a reader; or none, if its faults were told.
fn table_from<'a, R: Read + Drop>(
    rt: &HostRuntime,
    path: &'a str,
    reader: R,
) -> Result<Option<ReadTable<'a>>, RunRefusal>
    ensures named { IfOk result (λ found. IfSome found (λ table. path_of table ≡ path.now)) }
{
    let mut input = Host::new(Waiting::reader(reader, rt));
    let mut errors = HostOut::new(Waiting::writer(rt.stderr(), rt));
    read_plan_table(rt.alloc(), &mut input, &mut errors, path)
}

// The table of holidays at this path, or none, if its faults were told.
fn table_at<'a>(rt: &HostRuntime, path: &'a str) -> Result<Option<ReadTable<'a>>, RunRefusal>
    ensures named { IfOk result (λ found. IfSome found (λ table. path_of table ≡ path.now)) }
{
    match path {
        "-" => table_from(rt, path, rt.stdin()),
        path => table_from(rt, path, open(rt, path)?),
    }
}

// The options with which texts of hours are read, by their table of holidays, if one is given. If that is refused or at fault,
// this is told, and the answer is the status.
fn options_by<'a>(rt: &HostRuntime, given: &'a HoursOptions) -> Result<PlanOptions<'a>, ExitCode>
    ensures given { IfOk result (AreOptionsOf given.now) }
{
    match &given.holidays {
        Some(path) => match table_at(rt, path.as_str()) {
            Ok(Some(table)) => Ok(options_of_plan(Some(table), given)),
            Ok(None) => Err(ExitCode::from(Ending::FaultsListed.status())),
            Err(refusal) => Err(finish(rt, Err(refusal), path.as_str(), "")),
        },
        None => Ok(options_of_plan(None, given)),
    }
}

// Carries a plan out that reads one file at a time, or none. If its table of holidays is refused or at fault, no file follows.
fn run_one(rt: &HostRuntime, plan: &OnePlan) -> ExitCode {
    match options_given(plan) {
        Some(given) => match options_by(rt, given) {
            Ok(options) => run_with(rt, plan, &options),
            Err(status) => status,
        },
        None => run_with(rt, plan, &no_options()),
    }
}

// Carries such a plan out with its options.
fn run_with<'a>(rt: &HostRuntime, plan: &'a OnePlan, options: &'a PlanOptions<'a>) -> ExitCode
    requires given { AreOptionsIn plan.now options.now }
{
    match plan.files() {
        Files::Several(paths) => run_files(rt, plan, options, paths),
        Files::One(path) => {
            let turn = Turn {
                plan,
                path,
                options,
            };
            finish(rt, run_file(rt, turn), path, plan.hours_text())
        }
        Files::None => {
            let path = "";
            let turn = Turn {
                plan,
                path,
                options,
            };
            finish(rt, print(rt, turn, io::empty()), path, plan.hours_text())
        }
    }
}

// Carries the plan of `diff` out, from two readers to standard output.
fn print_diff<R: Read + Drop, S: Read + Drop>(
    rt: &HostRuntime,
    plan: &DiffPlan,
    old: R,
    new: S,
) -> Result<Ending, RunRefusal> {
    let mut old = Host::new(Waiting::reader(old, rt));
    let mut new = Host::new(Waiting::reader(new, rt));
    let made = BufWriter::with_capacity(
        rt.alloc(),
        OUTPUT_BUFFER,
        Waiting::writer(io::writer(rt), rt),
    );
    let mut output = HostOut::new(made.map_err(|_| RunRefusal::Memory)?);
    perform_diff(rt.alloc(), plan, &mut old, &mut new, &mut output)
}

// Carries the plan of `diff` out, from the reader of the old file.
fn run_diff<R: Read + Drop>(
    rt: &HostRuntime,
    plan: &DiffPlan,
    old: R,
) -> Result<Ending, RunRefusal> {
    match plan.new.as_str() {
        "-" => print_diff(rt, plan, old, rt.stdin()),
        path => print_diff(rt, plan, old, open(rt, path)?),
    }
}

// The old record file.
fn open_old(rt: &HostRuntime, path: &str) -> Result<File, RunRefusal> {
    open(rt, path).map_err(|refusal| match refusal {
        RunRefusal::Open => RunRefusal::OldOpen,
        _ => refusal,
    })
}

// Answers the questions on standard input about the record file of a reader.
fn print_answers<R: Read + Drop>(rt: &HostRuntime, records: R) -> Result<Ending, RunRefusal> {
    let mut questions = Host::new(Waiting::reader(rt.stdin(), rt));
    let mut records = Host::new(Waiting::reader(records, rt));
    let made = BufWriter::with_capacity(
        rt.alloc(),
        OUTPUT_BUFFER,
        Waiting::writer(io::writer(rt), rt),
    );
    let mut output = HostOut::new(made.map_err(|_| RunRefusal::Memory)?);
    perform_ask(rt.alloc(), &mut questions, &mut records, &mut output)
}

// Carries the plan of `diff` out, from the paths of its files.
fn run_paths(rt: &HostRuntime, plan: &DiffPlan) -> Result<Ending, RunRefusal> {
    match plan.old.as_str() {
        "-" => run_diff(rt, plan, rt.stdin()),
        path => run_diff(rt, plan, open_old(rt, path)?),
    }
}

// The moment that the clock of a time zone shows now.
fn now_in(rt: &HostRuntime, zone: &str) -> Result<Moment, RunRefusal> {
    let Ok(path) = zone_path(rt.alloc(), zone) else {
        return Err(RunRefusal::Memory);
    };
    let file = open(rt, path.as_str()).map_err(|refusal| match refusal {
        RunRefusal::Open => no_zone(),
        _ => refusal,
    })?;
    let Ok(clock) = SystemTime::now(rt) else {
        return Err(no_zone());
    };
    let Ok(passed) = clock.duration_since(UNIX_EPOCH) else {
        return Err(no_zone());
    };
    match read_whole(rt.alloc(), &mut Host::new(file), MOST_ZONE_BYTES) {
        Ok(bytes) => moment_in_zone(rt.alloc(), bytes.as_slice(), passed.as_secs() as i64),
        Err(InputFault::NoMemory) => Err(RunRefusal::Memory),
        Err(_) => Err(no_zone()),
    }
}

// Carries the plan of `now --zone` out.
fn run_zone(rt: &HostRuntime, plan: ZonePlan) -> ExitCode {
    match now_in(rt, plan.zone.as_str()) {
        Ok(moment) => run_one(rt, &plan.at(moment)),
        Err(refusal) => finish(rt, Err(refusal), "", ""),
    }
}

// Answers the questions on standard input about the record file of this path.
fn run_ask(rt: &HostRuntime, path: &str) -> Result<Ending, RunRefusal> {
    match path {
        "-" => print_answers(rt, rt.stdin()),
        path => print_answers(rt, open(rt, path)?),
    }
}

// Carries the plan of `diff` out, and tells why one of its files is refused.
fn run_both(rt: &HostRuntime, plan: &DiffPlan) -> ExitCode {
    let answer = run_paths(rt, plan);
    let path = match answer {
        Err(refusal) => refused_file(plan, refusal),
        Ok(_) => "",
    };
    finish(rt, ended_with(answer, 0), path, "")
}

// Carries the plan of `conditions` out, from two readers to standard output.
fn print_conditions<R: Read + Drop, S: Read + Drop>(
    rt: &HostRuntime,
    turn: ConditionsTurn<'_>,
    tags: R,
    means: S,
) -> Result<Ran, RunRefusal> {
    let mut tags = Host::new(Waiting::reader(tags, rt));
    let mut means = Host::new(Waiting::reader(means, rt));
    let made = BufWriter::with_capacity(
        rt.alloc(),
        OUTPUT_BUFFER,
        Waiting::writer(io::writer(rt), rt),
    );
    let mut output = HostOut::new(made.map_err(|_| RunRefusal::Memory)?);
    let mut errors = HostOut::new(Waiting::writer(rt.stderr(), rt));
    let answer = perform_conditions(
        rt.alloc(),
        turn,
        &mut tags,
        &mut means,
        &mut output,
        &mut errors,
    );
    ended_with(answer, errors.failures())
}

// The table of means.
fn open_means(rt: &HostRuntime, path: &str) -> Result<File, RunRefusal> {
    open(rt, path).map_err(|refusal| match refusal {
        RunRefusal::Open => RunRefusal::MeansOpen,
        _ => refusal,
    })
}

// Carries the plan of `conditions` out, from the reader of the file of tags.
fn run_conditions<R: Read + Drop>(
    rt: &HostRuntime,
    turn: ConditionsTurn<'_>,
    tags: R,
) -> Result<Ran, RunRefusal> {
    match turn.plan.means.as_str() {
        "-" => print_conditions(rt, turn, tags, rt.stdin()),
        path => print_conditions(rt, turn, tags, open_means(rt, path)?),
    }
}

// Carries the plan of `conditions` out, from the paths of its files.
fn run_tags(rt: &HostRuntime, turn: ConditionsTurn<'_>) -> Result<Ran, RunRefusal> {
    match turn.plan.tags.as_str() {
        "-" => run_conditions(rt, turn, rt.stdin()),
        path => run_conditions(rt, turn, open(rt, path)?),
    }
}

// Runs the plan of `conditions`, and reports why one of its files is refused.
fn run_turn(rt: &HostRuntime, turn: ConditionsTurn<'_>) -> ExitCode {
    let answer = run_tags(rt, turn);
    let path = match answer {
        Err(refusal) => refused_table(turn.plan, refusal),
        Ok(_) => "",
    };
    finish(rt, answer, path, "")
}

// Carries the plan of `conditions` out. If its table of holidays is refused or at fault, the other files are not read.
fn run_tags_and_means(rt: &HostRuntime, plan: &ConditionsPlan) -> ExitCode {
    match options_by(rt, &plan.options) {
        Ok(options) => {
            let turn = ConditionsTurn {
                plan,
                options: &options,
            };
            run_turn(rt, turn)
        }
        Err(status) => status,
    }
}

fn run(rt: &HostRuntime, plan: Plan) -> ExitCode {
    match plan {
        Plan::One(plan) => run_one(rt, &plan),
        Plan::NowIn(plan) => run_zone(rt, plan),
        Plan::Diff(plan) => run_both(rt, &plan),
        Plan::Conditions(plan) => run_tags_and_means(rt, &plan),
        Plan::Ask(path) => {
            let answer = run_ask(rt, path.as_str());
            finish(rt, ended_with(answer, 0), path.as_str(), "")
        }
    }
}

// The status of an answer. Where a refusal or a difference has a status of its own, lost warnings change nothing.
fn status_of(answer: Result<Ran, RunRefusal>) -> ExitCode {
    match answer {
        Ok(ran) => {
            if !ran.warned && ran.ending == Ending::Done {
                ExitCode::from(WARNINGS_LOST)
            } else {
                ExitCode::from(ran.ending.status())
            }
        }
        Err(refusal) => ExitCode::from(refusal.status()),
    }
}

// Writes the lines of a refusal about this file or this text. If standard error fails, the status stays the same.
fn tell(rt: &HostRuntime, refusal: Refusal, file: &str, text: &str) {
    let snippet = word_snippet(text, refusal);
    let _ = rt.eprint(&RefusalLines {
        refusal,
        file,
        snippet,
    });
}

// The status of an answer. If it is a refusal about the file of this path, or about this text, its lines are written.
fn finish(rt: &HostRuntime, answer: Result<Ran, RunRefusal>, path: &str, text: &str) -> ExitCode {
    if let Err(refusal) = answer {
        tell(rt, Refusal::Run(refusal), path, text);
    }
    status_of(answer)
}

fn main(rt: HostRuntime) -> ExitCode {
    let planned = match words_of(&rt) {
        Ok(words) => plan(rt.alloc(), words),
        Err(why) => Err(LineRefusal {
            why,
            text: String::new(rt.alloc()),
        }),
    };
    match planned {
        Ok(plan) => run(&rt, plan),
        Err(refused) => {
            let refusal = Refusal::Words(refused.why);
            tell(&rt, refusal, "", refused.text.as_str());
            ExitCode::from(refusal.status())
        }
    }
}
