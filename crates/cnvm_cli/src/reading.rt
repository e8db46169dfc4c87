//! Reads the program, the script and an image from their sources.

ghost use Rattle.std.specs.Prelude.{◌≡◌, ◌≤◌, ◌^◌, ℕ, List, Some, length, IfOk, OnOk, IsErrOf};
ghost use Rattle.std.specs.Io.KnownBytes.{IsAtEnd};
ghost use Rattle.nvm_base.specs.Rose.{Rose};
ghost use Rattle.session_law.specs.Words.{AreWords};
ghost use Rattle.cnvm_cli.specs.Verdict.{refused_by};
ghost use Rattle.cnvm_cli.specs.inside.Opened.{ImageIs, ImageReadAs};
ghost use Rattle.cnvm_cli.specs.inside.Texts.{TextIs, ProgramReadAs, ScriptReadAs};

use crate::refused::Refused;
use c_lexer::MOST_BYTES;
use cnvm_compile::{Asked, Compiled, Told, compile, told_of};
use cnvm_script::{SCRIPT_BYTES, Script, ScriptFault, read_script};
use cnvm_session::Program;
use nvm_base::{Bytes, ReadAllFault, Source, UpToFault, Words, read_all};
use pool_layout::{RawImage, pool_lines, read_image, read_onto};
use std::alloc::Global;

/// All bytes of the source, if they are within the limit.
pub(crate) fn read_text<S: Source>(
    alloc: Global,
    source: &mut S,
    limit: usize,
) -> Result<Bytes, ReadAllFault>
    requires { limit ≤ 2 ^ 31 }
    ensures told { (text : List ℕ) → S.left source.old ≡ Some text → TextIs limit result text }
    ensures within { IfOk result (λ bytes. length bytes ≤ limit) }
    ensures end { OnOk result (IsAtEnd (S.left source.new)) }
    ensures read { IsErrOf result ReadAllFault.ReadFault
        → Rose (S.faults source.old) (S.faults source.new) }
{
    read_all(alloc, source, limit)
}

/// Reads the program to its end, and compiles it.
pub(crate) fn read_program<S: Source>(
    alloc: Global,
    source: &mut S,
    asked: Asked,
) -> Result<Compiled, Refused>
    ensures told { ProgramReadAs asked result (S.left source.old) }
    ensures end { OnOk result (IsAtEnd (S.left source.new)) }
    ensures read { IsErrOf result Refused.ReadFault
        → Rose (S.faults source.old) (S.faults source.new) }
    ensures usage { IsErrOf result Refused.Usage → ⊥ }
{
    let text = match read_text(alloc, source, MOST_BYTES) {
        Ok(text) => text,
        Err(ReadAllFault::ReadFault) => return Err(Refused::ReadFault),
        Err(ReadAllFault::Long) => return Err(Refused::LongProgram),
        Err(ReadAllFault::NoMemory) => return Err(Refused::NoMemory),
    };
    program_of(alloc, text.as_slice(), asked)
}

/// Compiles a text to a program.
fn program_of(alloc: Global, text: &[u8], asked: Asked) -> Result<Compiled, Refused>
    ensures is { ProgramReadAs asked result (Some text.now) }
    ensures read { IsErrOf result Refused.ReadFault → ⊥ }
    ensures usage { IsErrOf result Refused.Usage → ⊥ }
{
    match compile(alloc, text, asked) {
        Ok(compiled) => Ok(compiled),
        Err(fault) => Err(refused_by(told_of(fault))),
    }
}

fn refused_by(told: Told) -> Refused
    ensures value { result ≡ refused_by told }
    ensures read { result ≡ Refused.ReadFault → ⊥ }
    ensures usage { result ≡ Refused.Usage → ⊥ }
{
    match told {
        Told::Long => Refused::LongProgram,
        Told::At(line, complaint) => Refused::Program(line, complaint),
        Told::NoMemory => Refused::NoMemory,
    }
}

/// Reads the script to its end.
pub(crate) fn read_commands<T: Source>(alloc: Global, source: &mut T) -> Result<Script, Refused>
    ensures told { ScriptReadAs result (T.left source.old) }
    ensures end { OnOk result (IsAtEnd (T.left source.new)) }
    ensures read { IsErrOf result Refused.ReadFault
        → Rose (T.faults source.old) (T.faults source.new) }
    ensures usage { IsErrOf result Refused.Usage → ⊥ }
{
    let text = match read_text(alloc, source, SCRIPT_BYTES) {
        Ok(text) => text,
        Err(ReadAllFault::ReadFault) => return Err(Refused::ReadFault),
        Err(ReadAllFault::Long) => return Err(Refused::LongScript),
        Err(ReadAllFault::NoMemory) => return Err(Refused::NoMemory),
    };
    commands_of(alloc, text.as_slice())
}

/// The commands of a script's text.
fn commands_of(alloc: Global, text: &[u8]) -> Result<Script, Refused>
    requires { length text.now ≤ SCRIPT_BYTES }
    ensures are { ScriptReadAs result (Some text.now) }
    ensures read { IsErrOf result Refused.ReadFault → ⊥ }
    ensures usage { IsErrOf result Refused.Usage → ⊥ }
{
    match read_script(alloc, text) {
        Ok(script) => Ok(script),
        Err(ScriptFault::BadLine(line)) => Err(Refused::Script(line)),
        Err(ScriptFault::NoMemory) => Err(Refused::NoMemory),
    }
}

/// Reads an image of a pool of the program, at most one byte past its length.
pub(crate) fn read_words<I: Source>(
    alloc: Global,
    source: &mut I,
    program: &Program,
) -> Result<Words, Refused>
    ensures told { ImageReadAs program.now result (I.left source.old) }
    ensures read { IsErrOf result Refused.ReadFault
        → Rose (I.faults source.old) (I.faults source.new) }
    ensures usage { IsErrOf result Refused.Usage → ⊥ }
{
    let most = 64 * pool_lines(program.image.sizes()) as usize + 1;
    let mut image = RawImage::new(alloc);
    match read_onto(alloc, source, &mut image, most) {
        Ok(()) => words_of(alloc, image, program),
        Err(UpToFault::ReadFault) => Err(Refused::ReadFault),
        Err(UpToFault::NoMemory) => Err(Refused::NoMemory),
    }
}

/// The words of an image's bytes.
pub(crate) fn words_of(alloc: Global, bytes: RawImage, program: &Program) -> Result<Words, Refused>
    ensures are { ImageIs program.now result bytes }
    ensures read { IsErrOf result Refused.ReadFault → ⊥ }
    ensures usage { IsErrOf result Refused.Usage → ⊥ }
{
    match read_image(alloc, bytes, &program.wanted()) {
        Ok(words) => {
            are_words(words.as_slice());
            Ok(words)
        }
        Err(fault) => Err(Refused::Image(fault)),
    }
}

/// Reads each word and so learns that it is a word, from -2^63 to 2^63 - 1. The function changes
/// nothing.
fn are_words(words: &[i64])
    ensures { AreWords words.now }
{
    for word in words {
        let _word = *word;
    }
}
