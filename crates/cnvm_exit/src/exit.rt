//! The program's edge: the words of the command line, files, standard input and output, and a
//! device in memory.

ghost use Rattle.std.specs.Prelude.{◌≡◌, ◌≢◌, ◌⊎◌, ◌<◌, map, string_bytes, None, IfSome};
ghost use Rattle.nvm_base.specs.Path.{path_of_source, path_of_sink, path_of_saved};
ghost use Rattle.nvm_base.specs.Path.{source_below};
ghost use Rattle.cnvm_exit.specs.Exits.{EndsCall, Exits};
ghost use Rattle.cnvm_cli.specs.PoolMeant.{HasPool};
ghost use Rattle.cnvm_cli.specs.World.{plan_in};
ghost use Rattle.cnvm_exit.specs.inside.Paths.{path_or_none, program_alone, served_paths};
ghost use Rattle.cnvm_exit.specs.inside.Paths.{paths_in, origin_of, path_of_script};

use crate::answer_sink::AnswerSink;
use crate::line_notes::{INPUT, LineNotes};
use crate::notes::{FileWorld, IMAGE_KEPT, Named, put_bytes, tell_end};
use crate::script_source::{MOST_KEPT, Origin, ScriptSource};
use cnvm_cli::{World, cnvm};
use cnvm_session::Traps;
use cnvm_words::{Plan, WordsFault, plan_of};
use file_pmem::{FilePmem, Hold, StdFile, StdPools};
use nvm_base::{KeptSource, SavedFile, Sink, StdNotes, StdSink, StdSource, Steps, Text};
use pmem::{SparseLines, SparsePmem};
use session_run::Status;
use std::alloc::Global;
use std::env;
use std::io::IsTerminal;
use std::marker::Brand;
use std::os::unix::fs::FileExt;
use std::rt::{Env, Files};
use std::sync::ledger::{Blank, Ledger};

/// Runs the program on the words of the command line; the answer is its exit status.
pub fn exit_code<R: Files + Input + Print + Eprint + Env + AllocGlobal>(rt: &R) -> u8
where
    R::File: FileExt + Hold,
    R::Reader: IsTerminal,
    ensures { Exits result }
{
    match words_of(rt) {
        Some(words) => run_on(rt, &words).number(),
        None => {
            tell_no_memory(rt);
            Status::NoMemory.number()
        }
    }
}

/// The words of the command line, without the program's name.
fn words_of<R: Env + AllocGlobal>(rt: &R) -> Option<Vec<String>> {
    let mut given = env::args(rt).ok()?;
    given.next();
    let words: Result<Vec<String>, _> = given.collect(rt.alloc());
    words.ok()
}

/// The paths that the words name; an empty path where they name none. A script may also come from
/// standard input.
#[derive(Drop)]
struct Paths {
    program: Text,
    origin: Origin,
    script: Text,
    image_in: Text,
    image_out: Text,
    former: Text,
}

/// The paths that the words name. `None` if there was no memory.
fn paths_of(alloc: Global, words: &[String]) -> Option<Paths>
    ensures { IfSome result (λ paths. paths ≡ paths_in (plan_in words.entry.now)) }
{
    match plan_of(alloc, words) {
        Ok(plan) => Some(paths_in(alloc, plan)),
        Err(WordsFault::Usage) => Some(program_alone(alloc, Text::new(alloc))),
        Err(WordsFault::NoMemory) => None,
    }
}

/// The paths that the plan names.
fn paths_in(alloc: Global, plan: Plan) -> Paths
    ensures { result ≡ paths_in (Some plan) }
{
    match plan {
        Plan::Run {
            program_path,
            script_path,
            start_image,
            end_image,
            ..
        } => Paths {
            program: program_path,
            origin: origin_of(script_path.as_str()),
            script: script_path,
            image_in: given_or_empty(alloc, start_image),
            image_out: given_or_empty(alloc, end_image),
            former: Text::new(alloc),
        },
        Plan::RunPool {
            program_path,
            script_path,
            pool_path,
            former_path,
            ..
        } => Paths {
            program: program_path,
            origin: origin_of(script_path.as_str()),
            script: script_path,
            image_in: pool_path,
            image_out: Text::new(alloc),
            former: given_or_empty(alloc, former_path),
        },
        Plan::Serve { program_path, .. } => {
            served_paths(alloc, program_path, Text::new(alloc), None)
        }
        Plan::ServePool {
            program_path,
            pool_path,
            former_path,
            ..
        } => served_paths(alloc, program_path, pool_path, former_path),
        Plan::List { program_path } => program_alone(alloc, program_path),
        Plan::Storm { program_path, .. } => program_alone(alloc, program_path),
        Plan::Why { program_path } => program_alone(alloc, program_path),
        Plan::Workers {
            program_path,
            script_path,
            ..
        } => Paths {
            program: program_path,
            origin: Origin::File,
            script: script_path,
            image_in: Text::new(alloc),
            image_out: Text::new(alloc),
            former: Text::new(alloc),
        },
        Plan::WorkersPool {
            program_path,
            script_path,
            pool_path,
            ..
        } => Paths {
            program: program_path,
            origin: Origin::File,
            script: script_path,
            image_in: pool_path,
            image_out: Text::new(alloc),
            former: Text::new(alloc),
        },
        Plan::Emit { program_path, .. } => program_alone(alloc, program_path),
        Plan::Code { program_path } => program_alone(alloc, program_path),
    }
}

/// The path of the program; the others are empty.
fn program_alone(alloc: Global, program: Text) -> Paths
    ensures { result ≡ program_alone program }
{
    Paths {
        program,
        origin: Origin::File,
        script: Text::new(alloc),
        image_in: Text::new(alloc),
        image_out: Text::new(alloc),
        former: Text::new(alloc),
    }
}

/// Lines that come are answered on the pool of this path, or in memory.
fn served_paths(alloc: Global, program: Text, pool: Text, former: Option<Text>) -> Paths
    ensures { result ≡ served_paths program pool former }
{
    Paths {
        program,
        origin: Origin::Lines,
        script: Text::new(alloc),
        image_in: pool,
        image_out: Text::new(alloc),
        former: given_or_empty(alloc, former),
    }
}

/// Where the script of this path comes from: `-` is standard input.
fn origin_of(path: &str) -> Origin
    ensures { result ≡ origin_of path.now }
{
    if path == "-" {
        Origin::Input
    } else {
        Origin::File
    }
}

/// The path, or an empty one.
fn given_or_empty(alloc: Global, path: Option<Text>) -> Text
    ensures { result ≡ path_or_none path }
{
    match path {
        Some(path) => path,
        None => Text::new(alloc),
    }
}

/// Runs what these words ask for on the files that they name.
pub fn run_on<R: Files + Input + Print + Eprint + AllocGlobal>(rt: &R, words: &[String]) -> Status
where
    R::File: FileExt + Hold,
    R::Reader: IsTerminal,
    ensures usage { result ≡ Status.Usage → plan_in words.entry.now ≡ None }
    ensures wrong { plan_in words.entry.now ≡ None → (result ≡ Status.Usage)
        ⊎ ((result ≡ Status.NoMemory) ⊎ (result ≡ Status.WriteFault)) }
    ensures never { result ≡ Status.DeviceFault → HasPool (plan_in words.entry.now) }
    ensures source { EndsCall (map string_bytes words.entry.now) result }
{
    match paths_of(rt.alloc(), words) {
        Some(paths) => run_with::<R, Brand>(rt, words, &paths, Blank::new(1)),
        None => {
            tell_no_memory(rt);
            Status::NoMemory
        }
    }
}

/// Tells that there was no memory for the words.
fn tell_no_memory<R: Eprint>(rt: &R) {
    let mut notes = StdNotes::new(rt);
    put_bytes(&mut notes, b"cnvm: out of memory\n");
}

/// The files of these paths, each opened at its own; the answers go to standard output.
fn world_on<'a, R: Files + Input + Print + Eprint + AllocGlobal, P>(
    rt: &'a R,
    paths: &'a Paths,
    dev: P,
) -> FileWorld<'a, R, P>
where
    R::Reader: IsTerminal,
    ensures program { path_of_source (source_below result.program) ≡ paths.now.program }
    ensures former { path_of_source (source_below result.former) ≡ paths.now.former }
    ensures script { path_of_script result.script ≡ paths.now.script }
    ensures image_in { path_of_source (source_below result.image_in) ≡ paths.now.image_in }
    ensures out { path_of_sink result.out.sink ≡ None }
    ensures image_out { path_of_saved result.image_out ≡ paths.now.image_out }
    ensures dev { result.dev ≡ dev }
{
    let alloc = rt.alloc();
    let most = match paths.origin {
        Origin::Lines => MOST_KEPT,
        Origin::File | Origin::Input => usize::MAX,
    };
    World {
        program: KeptSource::new(alloc, StdSource::new(rt, paths.program.as_str())),
        former: KeptSource::new(alloc, StdSource::new(rt, paths.former.as_str())),
        script: ScriptSource::new(alloc, rt, paths.script.as_str(), paths.origin, most),
        image_in: KeptSource::first(
            alloc,
            StdSource::new(rt, paths.image_in.as_str()),
            IMAGE_KEPT,
        ),
        out: AnswerSink::new(alloc, StdSink::standard(rt), most),
        image_out: SavedFile::new(rt, paths.image_out.as_str()),
        dev,
        traps: Traps::new(),
    }
}

/// Runs what the words ask for on the files of these paths.
fn run_with<R: Files + Input + Print + Eprint + AllocGlobal, L: Ledger>(
    rt: &R,
    words: &[String],
    paths: &Paths,
    blank: Blank,
) -> Status
where
    R::File: FileExt + Hold,
    R::Reader: IsTerminal,
    requires name { blank.name ≡ L.name }
    requires parts { blank.parts ≡ L.parts }
    requires some { 0 < blank.parts }
    requires paths { paths.now ≡ paths_in (plan_in words.now) }
    ensures usage { result ≡ Status.Usage → plan_in words.entry.now ≡ None }
    ensures wrong { plan_in words.entry.now ≡ None → (result ≡ Status.Usage)
        ⊎ ((result ≡ Status.NoMemory) ⊎ (result ≡ Status.WriteFault)) }
    ensures source { EndsCall (map string_bytes words.entry.now) result }
{
    let alloc = rt.alloc();
    let mut world = world_on(rt, paths, SparsePmem::new(rt.alloc()));
    let mut pools = StdPools::new(rt, paths.image_in.as_str());
    let mut held = FilePmem::<SparseLines, StdFile<R::File>>::new(alloc);
    let mut steps = Steps::<L>::new(blank);
    let mut bad = LineNotes::new(alloc, rt);
    let status = cnvm(
        alloc, words, &mut world, &mut pools, &mut held, &mut bad, &mut steps,
    );
    // A run that ended early leaves answers that are held back.
    let _ = world.out.finish();
    let mut notes = StdNotes::new(rt);
    tell_end(
        alloc,
        words,
        names_of(paths),
        status,
        &world,
        pools.reason(),
        &mut notes,
    );
    status
}

/// The paths as texts.
fn names_of(paths: &Paths) -> Named<'_> {
    Named {
        program: paths.program.as_str(),
        script: match paths.origin {
            Origin::File => paths.script.as_str(),
            Origin::Input | Origin::Lines => INPUT,
        },
        image_in: paths.image_in.as_str(),
        image_out: paths.image_out.as_str(),
        former: paths.former.as_str(),
    }
}
