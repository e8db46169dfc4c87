//! The subcommands that print what a program is compiled to.

ghost use Rattle.std.specs.Prelude.{◌≡◌, false, IfOk};
ghost use Rattle.clap.specs.declared.builder.command.Command.TheViews.{out-Command as fields_of};
ghost use Rattle.clap.specs.Words.{app_of, with_subcommand};
ghost use Rattle.cnvm_words.specs.App.{emit_app, code_app};

use crate::command::{code_command, emit_command};
use clap::Command;
use std::alloc::{AllocError, Global};

/// A command with the subcommands `emit` and `code`.
pub(crate) fn with_prints<'a>(
    alloc: Global,
    command: Command<'a>,
) -> Result<Command<'a>, AllocError>
    requires { (fields_of command).has_globals ≡ false }
    ensures app { IfOk result (λ r. app_of r ≡ with_subcommand
        (with_subcommand (app_of command.entry) emit_app.top) code_app.top) }
    ensures local { IfOk result (λ r. (fields_of r).has_globals ≡ false) }
{
    let command = command.subcommand(emit_command(alloc)?)?;
    command.subcommand(code_command(alloc)?)
}
