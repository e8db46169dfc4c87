//! Writes a program's transactions as C.

ghost use Rattle.std.specs.Prelude.{◌≡◌, ◌≢◌};
ghost use Rattle.std.specs.Io.KnownBytes.{IsAtEnd};
ghost use Rattle.nvm_base.specs.Rose.{Rose};
ghost use Rattle.cnvm_cli.specs.Emitted.{EmitEnds};
ghost use Rattle.session_run.specs.Strict.{IsAnswered};

use crate::reading::read_program;
use crate::refused::refuse;
use cnvm_compile::Asked;
use cnvm_emit::emit_text;
use nvm_base::{Sink, Source};
use session_run::{Status, put};
use std::alloc::Global;

/// Writes the C file of the program, or its header. All names in it begin with the prefix.
pub(crate) fn emit<S: Source, K: Sink>(
    alloc: Global,
    asked: Asked,
    prefix: &str,
    header: bool,
    program: &mut S,
    out: &mut K,
) -> Status
    ensures read { result ≡ Status.ReadFault → Rose (S.faults program.old) (S.faults program.new) }
    ensures usage { result ≢ Status.Usage }
    ensures write { result ≡ Status.WriteFault → Rose (K.faults out.old) (K.faults out.new) }
    ensures device { result ≢ Status.DeviceFault }
    ensures end { IsAnswered result → IsAtEnd (S.left program.new) }
    ensures ends { EmitEnds asked prefix.now header (S.left program.old) result
        (K.written out.old) (K.written out.new) }
{
    let compiled = match read_program(alloc, program, asked) {
        Ok(compiled) => compiled,
        Err(refused) => return refuse(alloc, refused, out),
    };
    match emit_text(alloc, &compiled, prefix, header) {
        Ok(text) => put(out, text.as_str(), Status::Done),
        Err(_) => Status::NoMemory,
    }
}
