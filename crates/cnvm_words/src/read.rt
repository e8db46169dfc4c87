//! Reads the words and makes the plan.

ghost use Rattle.std.specs.Prelude.{◌≡◌, ◌<◌, ◌≤◌, Some, None, IfOk, IfSome, IfErr, Err};
ghost use Rattle.std.specs.Prelude.{option_map, option_and_then, map, string_bytes, false, []};
ghost use Rattle.std.specs.Prelude.{codes};
ghost use Rattle.clap.specs.Walk.{is_empty};
ghost use Rattle.clap.specs.Words.{rows_of, found_of, first_of, fault_of, subcommand_of};
ghost use Rattle.clap.specs.Words.{subcommand_rows_of, kind_of};
ghost use Rattle.clap.specs.declared.error.kind.ErrorKind.TheVariants.{OutOfMemory};
ghost use Rattle.cnvm_words.specs.App.{cnvm_app};
ghost use Rattle.cnvm_words.specs.Asked.{in_limits, number_between, number_or, asked_pool};
ghost use Rattle.cnvm_words.specs.Asked.{run_plan, list_plan, storm_plan, why_plan, workers_plan};
ghost use Rattle.cnvm_words.specs.Asked.{is_set, serve_plan, emit_plan, code_plan, subcommand_plan};
ghost use Rattle.cnvm_words.specs.Asked.{plan_of};
ghost use Rattle.cnvm_words.specs.Asked.{HasLimits};
ghost use Rattle.cnvm_words.specs.Prefix.{asked_prefix};

use crate::command::cnvm_command;
use crate::plan::{Plan, WordsFault};
use crate::prefix::{default_prefix, is_prefix};
use clap::ArgMatches;
use clap::error::{Error, ErrorKind};
use cnvm_script::numeral;
use nvm_base::Text;
use pool_map::{RECORDS, SLOTS, TICKS};
use std::alloc::{AllocError, Global};

/// The value of the option with this name.
fn text_at<'a>(matches: &ArgMatches<'a>, id: &str) -> Option<&'a str>
    ensures { option_map (λ s. s.now) result ≡ first_of id.now (rows_of (found_of matches.now)) }
{
    matches.get_str(id)
}

fn copied(alloc: Global, text: &str) -> Result<Text, AllocError>
    ensures { IfOk result (λ t. t ≡ text.now) }
{
    let mut copy = Text::new(alloc);
    copy.push(text)?;
    Ok(copy)
}

/// A required path.
fn path_at(alloc: Global, matches: &ArgMatches<'_>, id: &str) -> Result<Text, WordsFault>
    ensures ok { IfOk result (λ t. first_of id.now (rows_of (found_of matches.now)) ≡ Some t) }
    ensures usage { result ≡ Err WordsFault.Usage
        → first_of id.now (rows_of (found_of matches.now)) ≡ None }
{
    match text_at(matches, id) {
        Some(text) => Ok(copied(alloc, text)?),
        None => Err(WordsFault::Usage),
    }
}

/// An optional path.
fn image_at(alloc: Global, matches: &ArgMatches<'_>, id: &str) -> Result<Option<Text>, AllocError>
    ensures { IfOk result (λ t. t ≡ first_of id.now (rows_of (found_of matches.now))) }
{
    match text_at(matches, id) {
        Some(text) => Ok(Some(copied(alloc, text)?)),
        None => Ok(None),
    }
}

fn in_limits(least: u64, most: u64, n: u64) -> Option<u64>
    ensures value { result ≡ in_limits least most n }
    ensures within { IfSome result (λ k. (least ≤ k) × (k ≤ most)) }
{
    if least <= n && n <= most {
        return Some(n);
    }
    None
}

fn number(least: u64, most: u64, text: &str) -> Option<u64>
    ensures value { result ≡ number_between least most text.now }
    ensures within { IfSome result (λ k. (least ≤ k) × (k ≤ most)) }
{
    in_limits(least, most, numeral(text.as_bytes(), 10)?)
}

/// A required number.
fn number_at(matches: &ArgMatches<'_>, id: &str, least: u64, most: u64) -> Option<u64>
    ensures { result ≡ option_and_then (number_between least most)
        (first_of id.now (rows_of (found_of matches.now))) }
{
    number(least, most, text_at(matches, id)?)
}

/// An optional number.
fn number_or(matches: &ArgMatches<'_>, id: &str, default: u64, least: u64, most: u64) -> Option<u64>
    ensures value { result ≡ number_or default least most
        (first_of id.now (rows_of (found_of matches.now))) }
    ensures within { least ≤ default → default ≤ most
        → IfSome result (λ k. (least ≤ k) × (k ≤ most)) }
{
    match text_at(matches, id) {
        Some(text) => number(least, most, text),
        None => Some(default),
    }
}

/// Slots, records and ticks.
fn pool_of(matches: &ArgMatches<'_>) -> Option<(u64, u64, u64)>
    ensures { result ≡ asked_pool (rows_of (found_of matches.now)) }
{
    let slots = number_or(matches, "slots", 1_024, 1, SLOTS)?;
    let records = number_or(matches, "log", 256, 1, RECORDS)?;
    let ticks = number_or(matches, "ticks", 100_000, 1, TICKS)?;
    Some((slots, records, ticks))
}

fn run_plan(alloc: Global, matches: &ArgMatches<'_>) -> Result<Plan, WordsFault>
    ensures ok { IfOk result (λ p. run_plan (rows_of (found_of matches.now)) ≡ Some p) }
    ensures few { IfOk result (λ p. HasLimits p) }
    ensures usage { result ≡ Err WordsFault.Usage
        → run_plan (rows_of (found_of matches.now)) ≡ None }
{
    let program_path = path_at(alloc, matches, "program")?;
    let script_path = path_at(alloc, matches, "script")?;
    let Some((slots, records, ticks)) = pool_of(matches) else {
        return Err(WordsFault::Usage);
    };
    let start_image = image_at(alloc, matches, "open")?;
    let end_image = image_at(alloc, matches, "save")?;
    let former_path = image_at(alloc, matches, "from")?;
    let strict = has_flag(matches, "strict");
    let Some(pool_path) = image_at(alloc, matches, "pool")? else {
        if former_path.is_some() {
            return Err(WordsFault::Usage);
        }
        return Ok(Plan::Run {
            program_path,
            script_path,
            slots,
            records,
            ticks,
            start_image,
            end_image,
            strict,
        });
    };
    if start_image.is_some() || end_image.is_some() {
        return Err(WordsFault::Usage);
    }
    Ok(Plan::RunPool {
        program_path,
        script_path,
        slots,
        records,
        ticks,
        pool_path,
        former_path,
        strict,
    })
}

fn list_plan(alloc: Global, matches: &ArgMatches<'_>) -> Result<Plan, WordsFault>
    ensures ok { IfOk result (λ p. list_plan (rows_of (found_of matches.now)) ≡ Some p) }
    ensures few { IfOk result (λ p. HasLimits p) }
    ensures usage { result ≡ Err WordsFault.Usage
        → list_plan (rows_of (found_of matches.now)) ≡ None }
{
    Ok(Plan::List {
        program_path: path_at(alloc, matches, "program")?,
    })
}

/// Below how many events a storm cuts.
fn reach_of(matches: &ArgMatches<'_>) -> Option<u64>
    ensures value { result ≡ number_or 32 1 1000000
        (first_of (codes "reach") (rows_of (found_of matches.now))) }
    ensures within { IfSome result (λ n. 1 ≤ n) }
{
    number_or(matches, "reach", 32, 1, 1_000_000)
}

fn storm_plan(alloc: Global, matches: &ArgMatches<'_>) -> Result<Plan, WordsFault>
    ensures ok { IfOk result (λ p. storm_plan (rows_of (found_of matches.now)) ≡ Some p) }
    ensures few { IfOk result (λ p. HasLimits p) }
    ensures usage { result ≡ Err WordsFault.Usage
        → storm_plan (rows_of (found_of matches.now)) ≡ None }
{
    let program_path = path_at(alloc, matches, "program")?;
    let Some(start) = number_at(matches, "start", 0, 2_147_483_647) else {
        return Err(WordsFault::Usage);
    };
    let Some(count) = number_at(matches, "count", 0, 20_000) else {
        return Err(WordsFault::Usage);
    };
    let Some(reach) = reach_of(matches) else {
        return Err(WordsFault::Usage);
    };
    let Some((slots, records, ticks)) = pool_of(matches) else {
        return Err(WordsFault::Usage);
    };
    Ok(Plan::Storm {
        program_path,
        start,
        count,
        reach,
        plain: has_flag(matches, "plain"),
        slots,
        records,
        ticks,
    })
}

fn why_plan(alloc: Global, matches: &ArgMatches<'_>) -> Result<Plan, WordsFault>
    ensures ok { IfOk result (λ p. why_plan (rows_of (found_of matches.now)) ≡ Some p) }
    ensures few { IfOk result (λ p. HasLimits p) }
    ensures usage { result ≡ Err WordsFault.Usage
        → why_plan (rows_of (found_of matches.now)) ≡ None }
{
    Ok(Plan::Why {
        program_path: path_at(alloc, matches, "program")?,
    })
}

/// The number of workers.
fn workers_of(matches: &ArgMatches<'_>) -> Option<u64>
    ensures value { result ≡ number_or 2 1 8
        (first_of (codes "workers") (rows_of (found_of matches.now))) }
    ensures within { IfSome result (λ n. (1 ≤ n) × (n ≤ 8)) }
{
    number_or(matches, "workers", 2, 1, 8)
}

fn workers_plan(alloc: Global, matches: &ArgMatches<'_>) -> Result<Plan, WordsFault>
    ensures ok { IfOk result (λ p. workers_plan (rows_of (found_of matches.now)) ≡ Some p) }
    ensures few { IfOk result (λ p. HasLimits p) }
    ensures usage { result ≡ Err WordsFault.Usage
        → workers_plan (rows_of (found_of matches.now)) ≡ None }
{
    let program_path = path_at(alloc, matches, "program")?;
    let script_path = path_at(alloc, matches, "script")?;
    let Some(workers) = workers_of(matches) else {
        return Err(WordsFault::Usage);
    };
    let Some((slots, records, ticks)) = pool_of(matches) else {
        return Err(WordsFault::Usage);
    };
    let Some(pool_path) = image_at(alloc, matches, "pool")? else {
        return Ok(Plan::Workers {
            program_path,
            script_path,
            workers,
            slots,
            records,
            ticks,
        });
    };
    Ok(Plan::WorkersPool {
        program_path,
        script_path,
        workers,
        slots,
        records,
        ticks,
        pool_path,
    })
}

fn serve_plan(alloc: Global, matches: &ArgMatches<'_>) -> Result<Plan, WordsFault>
    ensures ok { IfOk result (λ p. serve_plan (rows_of (found_of matches.now)) ≡ Some p) }
    ensures few { IfOk result (λ p. HasLimits p) }
    ensures usage { result ≡ Err WordsFault.Usage
        → serve_plan (rows_of (found_of matches.now)) ≡ None }
{
    let program_path = path_at(alloc, matches, "program")?;
    let Some((slots, records, ticks)) = pool_of(matches) else {
        return Err(WordsFault::Usage);
    };
    let former_path = image_at(alloc, matches, "from")?;
    let Some(pool_path) = image_at(alloc, matches, "pool")? else {
        if former_path.is_some() {
            return Err(WordsFault::Usage);
        }
        return Ok(Plan::Serve {
            program_path,
            slots,
            records,
            ticks,
        });
    };
    Ok(Plan::ServePool {
        program_path,
        slots,
        records,
        ticks,
        pool_path,
        former_path,
    })
}

/// Whether a flag was given.
fn has_flag(matches: &ArgMatches<'_>, id: &str) -> bool
    ensures { result ≡ is_set (first_of id.now (rows_of (found_of matches.now))) }
{
    match text_at(matches, id) {
        Some(value) => value == "true",
        None => false,
    }
}

/// The prefix of the names in the C file of the program at this path.
fn prefix_at(alloc: Global, matches: &ArgMatches<'_>, path: &str) -> Result<Text, WordsFault>
    ensures ok { IfOk result (λ t. asked_prefix path.now
        (first_of (codes "prefix") (rows_of (found_of matches.now))) ≡ Some t) }
    ensures usage { result ≡ Err WordsFault.Usage → asked_prefix path.now
        (first_of (codes "prefix") (rows_of (found_of matches.now))) ≡ None }
{
    match text_at(matches, "prefix") {
        None => Ok(copied(alloc, default_prefix(path))?),
        Some(name) if is_prefix(name) => Ok(copied(alloc, name)?),
        Some(_) => Err(WordsFault::Usage),
    }
}

fn emit_plan(alloc: Global, matches: &ArgMatches<'_>) -> Result<Plan, WordsFault>
    ensures ok { IfOk result (λ p. emit_plan (rows_of (found_of matches.now)) ≡ Some p) }
    ensures few { IfOk result (λ p. HasLimits p) }
    ensures usage { result ≡ Err WordsFault.Usage
        → emit_plan (rows_of (found_of matches.now)) ≡ None }
{
    let program_path = path_at(alloc, matches, "program")?;
    let prefix = prefix_at(alloc, matches, program_path.as_str())?;
    let Some((slots, records, ticks)) = pool_of(matches) else {
        return Err(WordsFault::Usage);
    };
    Ok(Plan::Emit {
        program_path,
        prefix,
        header: has_flag(matches, "header"),
        slots,
        records,
        ticks,
    })
}

fn code_plan(alloc: Global, matches: &ArgMatches<'_>) -> Result<Plan, WordsFault>
    ensures ok { IfOk result (λ p. code_plan (rows_of (found_of matches.now)) ≡ Some p) }
    ensures few { IfOk result (λ p. HasLimits p) }
    ensures usage { result ≡ Err WordsFault.Usage
        → code_plan (rows_of (found_of matches.now)) ≡ None }
{
    Ok(Plan::Code {
        program_path: path_at(alloc, matches, "program")?,
    })
}

/// The plan of a subcommand.
fn planned(alloc: Global, name: &str, matches: &ArgMatches<'_>) -> Result<Plan, WordsFault>
    ensures ok { IfOk result (λ p. subcommand_plan name.now (rows_of (found_of matches.now))
        ≡ Some p) }
    ensures few { IfOk result (λ p. HasLimits p) }
    ensures usage { result ≡ Err WordsFault.Usage
        → subcommand_plan name.now (rows_of (found_of matches.now)) ≡ None }
{
    if name == "run" {
        return run_plan(alloc, matches);
    }
    if name == "list" {
        return list_plan(alloc, matches);
    }
    if name == "why" {
        return why_plan(alloc, matches);
    }
    if name == "workers" {
        return workers_plan(alloc, matches);
    }
    if name == "serve" {
        return serve_plan(alloc, matches);
    }
    if name == "emit" {
        return emit_plan(alloc, matches);
    }
    if name == "code" {
        return code_plan(alloc, matches);
    }
    storm_plan(alloc, matches)
}

/// Whether there was no memory.
fn is_memory(error: &Error) -> bool
    ensures { result ≡ false → kind_of error.now ≡ OutOfMemory → ⊥ }
{
    error.kind() == ErrorKind::OutOfMemory
}

/// The words as `clap` reads them.
#[tactic(auto, using(crate::proofs::Simple::simple, crate::proofs::Simple::simple_and_free))]
fn matches_of<'a>(alloc: Global, words: &'a [String]) -> Result<ArgMatches<'a>, WordsFault>
    ensures free { IfOk result (λ m. fault_of cnvm_app (map string_bytes words.entry.now) ≡ []) }
    ensures rows { IfOk result (λ m.
        subcommand_rows_of m ≡ subcommand_of cnvm_app (map string_bytes words.entry.now)) }
    ensures usage { result ≡ Err WordsFault.Usage
        → is_empty (fault_of cnvm_app (map string_bytes words.entry.now)) ≡ false }
{
    let command = cnvm_command(alloc)?;
    match command.try_get_matches_from(words) {
        Ok(matches) => Ok(matches),
        Err(error) if is_memory(&error) => Err(WordsFault::NoMemory),
        Err(_) => Err(WordsFault::Usage),
    }
}

/// The plan that the words ask for. Words that `clap` refuses for another cause than memory, and
/// numbers outside their limits, are `Usage`.
pub fn plan_of(alloc: Global, words: &[String]) -> Result<Plan, WordsFault>
    ensures ok { IfOk result (λ p. plan_of (map string_bytes words.entry.now) ≡ Some p) }
    ensures few { IfOk result (λ p. HasLimits p) }
    ensures usage { result ≡ Err WordsFault.Usage
        → plan_of (map string_bytes words.entry.now) ≡ None }
{
    let matches = matches_of(alloc, words)?;
    match matches.subcommand() {
        Some((name, matches)) => planned(alloc, name, matches),
        None => Err(WordsFault::Usage),
    }
}
