//! Writes why the logged stores of a program are logged.

ghost use Rattle.std.specs.Prelude.{◌≡◌, ◌≢◌, ◌⊎◌};
ghost use Rattle.std.specs.Io.KnownBytes.{IsAtEnd};
ghost use Rattle.nvm_base.specs.Rose.{Rose};
ghost use Rattle.walk_maker.specs.WhyText.{why_text};
ghost use Rattle.cnvm_cli.specs.Listed.{WrittenAs};
ghost use Rattle.cnvm_cli.specs.WhyEnds.{WhyEnds};
ghost use Rattle.session_run.specs.Strict.{IsAnswered};

use crate::reading::read_program;
use crate::refused::refuse;
use crate::run::LISTED;
use ir::Ir;
use nvm_base::{Sink, Source};
use session_run::{Status, put};
use std::alloc::Global;
use walk_check::Certificate;
use walk_maker::{explain, why_text};

/// Writes a certificate of why the logged stores of the program are logged.
pub(crate) fn why<S: Source, K: Sink>(alloc: Global, program: &mut S, out: &mut K) -> Status
    ensures read { result ≡ Status.ReadFault → Rose (S.faults program.old) (S.faults program.new) }
    ensures usage { result ≢ Status.Usage }
    ensures write { result ≡ Status.WriteFault → Rose (K.faults out.old) (K.faults out.new) }
    ensures device { result ≢ Status.DeviceFault }
    ensures end { IsAnswered result → IsAtEnd (S.left program.new) }
    ensures ends { WhyEnds (S.left program.old) result (K.written out.old) (K.written out.new) }
{
    let compiled = match read_program(alloc, program, LISTED) {
        Ok(compiled) => compiled,
        Err(refused) => return refuse(alloc, refused, out),
    };
    match explain(alloc, &compiled.ir) {
        Ok(certificate) => put_reasons(alloc, &compiled.ir, &certificate, out),
        Err(_) => Status::NoMemory,
    }
}

/// Writes the text of a certificate.
fn put_reasons<K: Sink>(alloc: Global, ir: &Ir, certificate: &Certificate, out: &mut K) -> Status
    ensures status { (result ≡ Status.Done)
        ⊎ ((result ≡ Status.NoMemory) ⊎ (result ≡ Status.WriteFault)) }
    ensures write { result ≡ Status.WriteFault → Rose (K.faults out.old) (K.faults out.new) }
    ensures written { WrittenAs (why_text ir.now certificate.now) result (K.written out.old)
        (K.written out.new) }
{
    match why_text(alloc, ir, certificate) {
        Ok(text) => put(out, text.as_str(), Status::Done),
        Err(_) => Status::NoMemory,
    }
}
