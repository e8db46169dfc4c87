//! Writes the intermediate code of a program.

ghost use Rattle.std.specs.Prelude.{◌≡◌, ◌≢◌};
ghost use Rattle.std.specs.Io.KnownBytes.{IsAtEnd};
ghost use Rattle.nvm_base.specs.Rose.{Rose};
ghost use Rattle.cnvm_cli.specs.CodeEnds.{CodeEnds};
ghost use Rattle.session_run.specs.Strict.{IsAnswered};

use crate::reading::read_program;
use crate::refused::refuse;
use crate::run::LISTED;
use code_print::code_text;
use nvm_base::{Sink, Source};
use session_run::{Status, put};
use std::alloc::Global;

/// Writes the intermediate code of the program, with the marks of its stores.
pub(crate) fn code<S: Source, K: Sink>(alloc: Global, program: &mut S, out: &mut K) -> Status
    ensures read { result ≡ Status.ReadFault → Rose (S.faults program.old) (S.faults program.new) }
    ensures usage { result ≢ Status.Usage }
    ensures write { result ≡ Status.WriteFault → Rose (K.faults out.old) (K.faults out.new) }
    ensures device { result ≢ Status.DeviceFault }
    ensures end { IsAnswered result → IsAtEnd (S.left program.new) }
    ensures ends { CodeEnds (S.left program.old) result (K.written out.old) (K.written out.new) }
{
    let compiled = match read_program(alloc, program, LISTED) {
        Ok(compiled) => compiled,
        Err(refused) => return refuse(alloc, refused, out),
    };
    match code_text(
        alloc,
        &compiled.program.typed,
        &compiled.ir,
        &compiled.marks,
    ) {
        Ok(text) => put(out, text.as_str(), Status::Done),
        Err(_) => Status::NoMemory,
    }
}
