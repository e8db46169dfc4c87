//! The command as `clap` knows it: eight subcommands. Their options take one value each, but for
//! those that are flags.

ghost use Rattle.std.specs.Prelude.{◌≡◌, false, IfOk};
ghost use Rattle.clap.specs.declared.builder.command.Command.TheViews.{out-Command as fields_of};
ghost use Rattle.clap.specs.Words.{app_of, rule_of};
ghost use Rattle.cnvm_words.specs.App.{option_rule, flag_rule, place_rule, bare_app, sized, pooled};
ghost use Rattle.cnvm_words.specs.App.{filed, counting};
ghost use Rattle.cnvm_words.specs.App.{run_app, list_app, storm_app, why_app, workers_app};
ghost use Rattle.cnvm_words.specs.App.{serve_app, emit_app, code_app, with_others, cnvm_app};

use crate::prints::with_prints;
use clap::{Arg, ArgAction, Command};
use std::alloc::{AllocError, Global};

fn option_arg<'a>(alloc: Global, name: &'a str) -> Arg<'a>
    ensures rule { rule_of result ≡ option_rule name.entry.now }
    ensures local { result.global ≡ false }
{
    Arg::new(alloc, name).long(name).action(ArgAction::Set)
}

fn flag_arg<'a>(alloc: Global, name: &'a str) -> Arg<'a>
    ensures rule { rule_of result ≡ flag_rule name.entry.now }
    ensures local { result.global ≡ false }
{
    Arg::new(alloc, name).long(name).action(ArgAction::SetTrue)
}

fn place_arg<'a>(alloc: Global, name: &'a str) -> Arg<'a>
    ensures rule { rule_of result ≡ place_rule name.entry.now }
    ensures local { result.global ≡ false }
{
    Arg::new(alloc, name).required(true).action(ArgAction::Set)
}

/// The command itself, with no help and no version.
fn bare_command<'a>(alloc: Global) -> Command<'a>
    ensures app { app_of result ≡ bare_app }
    ensures local { (fields_of result).has_globals ≡ false }
{
    Command::new(alloc, "cnvm")
        .no_binary_name(true)
        .disable_help_flag(true)
        .disable_help_subcommand(true)
        .disable_version_flag(true)
        .subcommand_required(true)
}

/// A command with the options of a pool's sizes.
fn with_sizes<'a>(alloc: Global, command: Command<'a>) -> Result<Command<'a>, AllocError>
    requires { (fields_of command).has_globals ≡ false }
    ensures app { IfOk result (λ r. app_of r ≡ sized (app_of command.entry)) }
    ensures local { IfOk result (λ r. (fields_of r).has_globals ≡ false) }
{
    let command = command.arg(option_arg(alloc, "slots"))?;
    let command = command.arg(option_arg(alloc, "log"))?;
    command.arg(option_arg(alloc, "ticks"))
}

/// A command with the options of a pool's files.
fn with_files<'a>(alloc: Global, command: Command<'a>) -> Result<Command<'a>, AllocError>
    requires { (fields_of command).has_globals ≡ false }
    ensures app { IfOk result (λ r. app_of r ≡ filed (app_of command.entry)) }
    ensures local { IfOk result (λ r. (fields_of r).has_globals ≡ false) }
{
    let command = command.arg(option_arg(alloc, "open"))?;
    let command = command.arg(option_arg(alloc, "save"))?;
    with_pool(alloc, command)
}

/// A command with the options of a pool's own file.
fn with_pool<'a>(alloc: Global, command: Command<'a>) -> Result<Command<'a>, AllocError>
    requires { (fields_of command).has_globals ≡ false }
    ensures app { IfOk result (λ r. app_of r ≡ pooled (app_of command.entry)) }
    ensures local { IfOk result (λ r. (fields_of r).has_globals ≡ false) }
{
    let command = command.arg(option_arg(alloc, "pool"))?;
    command.arg(option_arg(alloc, "from"))
}

/// A command with the options for how a storm cuts and counts.
fn with_counting<'a>(alloc: Global, command: Command<'a>) -> Result<Command<'a>, AllocError>
    requires { (fields_of command).has_globals ≡ false }
    ensures app { IfOk result (λ r. app_of r ≡ counting (app_of command.entry)) }
    ensures local { IfOk result (λ r. (fields_of r).has_globals ≡ false) }
{
    let command = command.arg(option_arg(alloc, "reach"))?;
    command.arg(flag_arg(alloc, "plain"))
}

fn run_command<'a>(alloc: Global) -> Result<Command<'a>, AllocError>
    ensures app { IfOk result (λ r. app_of r ≡ run_app) }
    ensures local { IfOk result (λ r. (fields_of r).has_globals ≡ false) }
{
    let command = Command::new(alloc, "run").arg(place_arg(alloc, "program"))?;
    let command = command.arg(place_arg(alloc, "script"))?;
    let command = command.arg(flag_arg(alloc, "strict"))?;
    with_sizes(alloc, with_files(alloc, command)?)
}

fn list_command<'a>(alloc: Global) -> Result<Command<'a>, AllocError>
    ensures app { IfOk result (λ r. app_of r ≡ list_app) }
    ensures local { IfOk result (λ r. (fields_of r).has_globals ≡ false) }
{
    Command::new(alloc, "list").arg(place_arg(alloc, "program"))
}

fn storm_command<'a>(alloc: Global) -> Result<Command<'a>, AllocError>
    ensures app { IfOk result (λ r. app_of r ≡ storm_app) }
    ensures local { IfOk result (λ r. (fields_of r).has_globals ≡ false) }
{
    let command = Command::new(alloc, "storm").arg(place_arg(alloc, "program"))?;
    let command = command.arg(place_arg(alloc, "start"))?;
    let command = command.arg(place_arg(alloc, "count"))?;
    with_sizes(alloc, with_counting(alloc, command)?)
}

fn why_command<'a>(alloc: Global) -> Result<Command<'a>, AllocError>
    ensures app { IfOk result (λ r. app_of r ≡ why_app) }
    ensures local { IfOk result (λ r. (fields_of r).has_globals ≡ false) }
{
    Command::new(alloc, "why").arg(place_arg(alloc, "program"))
}

fn workers_command<'a>(alloc: Global) -> Result<Command<'a>, AllocError>
    ensures app { IfOk result (λ r. app_of r ≡ workers_app) }
    ensures local { IfOk result (λ r. (fields_of r).has_globals ≡ false) }
{
    let command = Command::new(alloc, "workers").arg(place_arg(alloc, "program"))?;
    let command = command.arg(place_arg(alloc, "script"))?;
    let command = command.arg(option_arg(alloc, "workers"))?;
    let command = command.arg(option_arg(alloc, "pool"))?;
    with_sizes(alloc, command)
}

fn serve_command<'a>(alloc: Global) -> Result<Command<'a>, AllocError>
    ensures app { IfOk result (λ r. app_of r ≡ serve_app) }
    ensures local { IfOk result (λ r. (fields_of r).has_globals ≡ false) }
{
    let command = Command::new(alloc, "serve").arg(place_arg(alloc, "program"))?;
    with_sizes(alloc, with_pool(alloc, command)?)
}

pub(crate) fn emit_command<'a>(alloc: Global) -> Result<Command<'a>, AllocError>
    ensures app { IfOk result (λ r. app_of r ≡ emit_app) }
    ensures local { IfOk result (λ r. (fields_of r).has_globals ≡ false) }
{
    let command = Command::new(alloc, "emit").arg(place_arg(alloc, "program"))?;
    let command = command.arg(option_arg(alloc, "prefix"))?;
    let command = command.arg(flag_arg(alloc, "header"))?;
    with_sizes(alloc, command)
}

pub(crate) fn code_command<'a>(alloc: Global) -> Result<Command<'a>, AllocError>
    ensures app { IfOk result (λ r. app_of r ≡ code_app) }
    ensures local { IfOk result (λ r. (fields_of r).has_globals ≡ false) }
{
    Command::new(alloc, "code").arg(place_arg(alloc, "program"))
}

/// A command with the subcommands `why`, `workers`, `serve`, `emit` and `code`.
fn with_others<'a>(alloc: Global, command: Command<'a>) -> Result<Command<'a>, AllocError>
    requires { (fields_of command).has_globals ≡ false }
    ensures app { IfOk result (λ r. app_of r ≡ with_others (app_of command.entry)) }
    ensures local { IfOk result (λ r. (fields_of r).has_globals ≡ false) }
{
    let command = command.subcommand(why_command(alloc)?)?;
    let command = command.subcommand(workers_command(alloc)?)?;
    let command = command.subcommand(serve_command(alloc)?)?;
    with_prints(alloc, command)
}

/// The whole command.
#[tactic(auto, unfolding(crate::specs::App::cnvm_app))]
pub(crate) fn cnvm_command<'a>(alloc: Global) -> Result<Command<'a>, AllocError>
    ensures app { IfOk result (λ r. app_of r ≡ cnvm_app) }
    ensures local { IfOk result (λ r. (fields_of r).has_globals ≡ false) }
{
    let command = bare_command(alloc).subcommand(run_command(alloc)?)?;
    let command = command.subcommand(list_command(alloc)?)?;
    let command = command.subcommand(storm_command(alloc)?)?;
    with_others(alloc, command)
}
