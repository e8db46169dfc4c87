//! Why there is nothing to run, and what is reported of it.

ghost use Rattle.std.specs.Prelude.{◌≡◌, ◌≢◌, ◌⊎◌, ◌<◌, ◌++◌, ◌∷◌, [], IfOk, OnOk, string_bytes};
ghost use Rattle.nvm_base.specs.Rose.{Rose};
ghost use Rattle.cnvm_cli.specs.RefusalText.{digit, hex, word_text, digest_text, fault_line};
ghost use Rattle.cnvm_cli.specs.RefusalText.{refusal_line, image_has_line, has_line, image_status};
ghost use Rattle.cnvm_cli.specs.RefusalText.{refusal_status};
ghost use Rattle.cnvm_cli.specs.Run.{RefusedAs};

use cnvm_compile::{Complaint, complaint_line};
use nvm_base::Sink;
use pool_layout::ImageFault;
use session_run::{Status, tell};
use std::alloc::{AllocError, Global};

/// Why there is nothing to run.
#[derive(Clone, Copy)]
pub enum Refused {
    Usage,
    /// The program has too many bytes, or too many tokens.
    LongProgram,
    /// What is wrong with the program at a line.
    Program(u64, Complaint),
    LongScript,
    /// The script's first bad line.
    Script(u64),
    /// The first fault of the image.
    Image(ImageFault),
    /// Another process holds the pool's file, or has just made it.
    Busy,
    ReadFault,
    NoMemory,
}

/// The usage line.
const USAGE: &str = "usage: cnvm run PROGRAM SCRIPT | list PROGRAM \
    | storm PROGRAM START COUNT | why PROGRAM | workers PROGRAM SCRIPT | serve PROGRAM \
    | emit PROGRAM | code PROGRAM\n";

/// Reports a refusal; the status is the refusal's. Of a source that failed, and of want of memory,
/// nothing is reported.
#[tactic(auto, using(session_run::proofs::Running::keeps_same))]
pub(crate) fn refuse<K: Sink>(alloc: Global, refused: Refused, out: &mut K) -> Status
    ensures refused { RefusedAs refused result (K.written out.old) (K.written out.new) }
    ensures status { (result ≡ refusal_status refused)
        ⊎ ((result ≡ Status.NoMemory) ⊎ (result ≡ Status.WriteFault)) }
    ensures undone { result ≢ Status.Done }
    ensures unmet { result ≢ Status.Unmet }
    ensures write { result ≡ Status.WriteFault → (refusal_status refused ≡ Status.WriteFault)
        ⊎ Rose (K.faults out.old) (K.faults out.new) }
{
    if has_line(refused) {
        tell(out, refusal_line(alloc, refused), refusal_status(refused))
    } else {
        refusal_status(refused)
    }
}

/// Whether the refusal has a line.
fn has_line(refused: Refused) -> bool
    ensures { result ≡ has_line refused }
{
    match refused {
        Refused::Usage => true,
        Refused::LongProgram => true,
        Refused::Program(_, _) => true,
        Refused::LongScript => true,
        Refused::Script(_) => true,
        Refused::Image(fault) => image_has_line(fault),
        Refused::Busy => true,
        Refused::ReadFault => false,
        Refused::NoMemory => false,
    }
}

fn image_has_line(fault: ImageFault) -> bool
    ensures { result ≡ image_has_line fault }
{
    match fault {
        ImageFault::Short(_, _) => true,
        ImageFault::Magic(_, _) => true,
        ImageFault::Version(_, _) => true,
        ImageFault::Sizes(_, _) => true,
        ImageFault::Digest(_, _) => true,
        ImageFault::Content(_, _) => true,
        ImageFault::NoMemory => false,
    }
}

fn refusal_status(refused: Refused) -> Status
    ensures value { result ≡ refusal_status refused }
    ensures undone { result ≢ Status.Done }
    ensures unmet { result ≢ Status.Unmet }
{
    match refused {
        Refused::Usage => Status::Usage,
        Refused::LongProgram => Status::Program,
        Refused::Program(_, _) => Status::Program,
        Refused::LongScript => Status::Script,
        Refused::Script(_) => Status::Script,
        Refused::Image(fault) => image_status(fault),
        Refused::Busy => Status::PoolBusy,
        Refused::ReadFault => Status::ReadFault,
        Refused::NoMemory => Status::NoMemory,
    }
}

fn image_status(fault: ImageFault) -> Status
    ensures value { result ≡ image_status fault }
    ensures undone { result ≢ Status.Done }
    ensures unmet { result ≢ Status.Unmet }
{
    match fault {
        ImageFault::Short(_, _) => Status::Image,
        ImageFault::Magic(_, _) => Status::Image,
        ImageFault::Version(_, _) => Status::Image,
        ImageFault::Sizes(_, _) => Status::Image,
        ImageFault::Digest(_, _) => Status::Image,
        ImageFault::Content(_, _) => Status::Image,
        ImageFault::NoMemory => Status::NoMemory,
    }
}

fn text_of(alloc: Global, text: &str) -> Result<String, AllocError>
    ensures { IfOk result (λ s. string_bytes s ≡ text.now) }
{
    let mut copy = String::new(alloc);
    copy.push_str(text)?;
    Ok(copy)
}

/// The line of a refusal.
fn refusal_line(alloc: Global, refused: Refused) -> Result<String, AllocError>
    ensures { IfOk result (λ s. string_bytes s ≡ refusal_line refused) }
{
    match refused {
        Refused::Usage => text_of(alloc, USAGE),
        Refused::LongProgram => text_of(alloc, "program too long\n"),
        Refused::Program(line, complaint) => complaint_line(alloc, line, complaint),
        Refused::LongScript => text_of(alloc, "script too long\n"),
        Refused::Script(line) => script_line(alloc, line),
        Refused::Image(fault) => fault_line(alloc, fault),
        Refused::Busy => text_of(alloc, "pool busy\n"),
        Refused::ReadFault => text_of(alloc, ""),
        Refused::NoMemory => text_of(alloc, ""),
    }
}

/// The line that names a bad line of the script.
fn script_line(alloc: Global, line: u64) -> Result<String, AllocError>
    ensures { IfOk result (λ s. string_bytes s ≡ refusal_line (Refused.Script line)) }
{
    format!(in alloc; "script line {line}\n")
}

/// The line of an image's fault.
fn fault_line(alloc: Global, fault: ImageFault) -> Result<String, AllocError>
    ensures { IfOk result (λ s. string_bytes s ≡ fault_line fault) }
{
    match fault {
        ImageFault::Short(found, needed) => short_line(alloc, found, needed),
        ImageFault::Magic(found, wanted) => magic_line(alloc, found, wanted),
        ImageFault::Version(found, wanted) => version_line(alloc, found, wanted),
        ImageFault::Sizes(found, wanted) => sizes_line(alloc, found, wanted),
        ImageFault::Digest(found, wanted) => digest_line(alloc, &found, &wanted),
        ImageFault::Content(word, value) => content_line(alloc, word, value),
        ImageFault::NoMemory => text_of(alloc, ""),
    }
}

fn short_line(alloc: Global, found: u64, needed: u64) -> Result<String, AllocError>
    ensures { IfOk result (λ s. string_bytes s ≡ fault_line (ImageFault.Short found needed)) }
{
    format!(in alloc; "image short {found} {needed}\n")
}

#[tactic(auto, using(std::proofs::lemmas::Int::wraps))]
fn magic_line(alloc: Global, found: i64, wanted: i64) -> Result<String, AllocError>
    ensures { IfOk result (λ s. string_bytes s ≡ fault_line (ImageFault.Magic found wanted)) }
{
    format!(in alloc; "image magic {found} {wanted}\n")
}

#[tactic(auto, using(std::proofs::lemmas::Int::wraps))]
fn version_line(alloc: Global, found: i64, wanted: i64) -> Result<String, AllocError>
    ensures { IfOk result (λ s. string_bytes s ≡ fault_line (ImageFault.Version found wanted)) }
{
    format!(in alloc; "image version {found} {wanted}\n")
}

#[tactic(auto, using(std::proofs::lemmas::Int::wraps))]
fn sizes_line(alloc: Global, found: i64, wanted: i64) -> Result<String, AllocError>
    ensures { IfOk result (λ s. string_bytes s ≡ fault_line (ImageFault.Sizes found wanted)) }
{
    format!(in alloc; "image sizes {found} {wanted}\n")
}

#[tactic(auto, using(std::proofs::lemmas::Int::wraps))]
fn content_line(alloc: Global, word: u64, value: i64) -> Result<String, AllocError>
    ensures { IfOk result (λ s. string_bytes s ≡ fault_line (ImageFault.Content word value)) }
{
    format!(in alloc; "image content {word} {value}\n")
}

/// Two digests, each as 64 hexadecimal digits in the order of its bytes.
fn digest_line(alloc: Global, found: &[i64; 4], wanted: &[i64; 4]) -> Result<String, AllocError>
    ensures { IfOk result (λ s. string_bytes s
        ≡ fault_line (ImageFault.Digest found.now wanted.now)) }
{
    let mut line = text_of(alloc, "image digest ")?;
    push_digest(&mut line, found.as_slice())?;
    line.push_str(" ")?;
    push_digest(&mut line, wanted.as_slice())?;
    line.push_str("\n")?;
    Ok(line)
}

/// Appends a digest as 64 hexadecimal digits in the order of its bytes.
pub fn push_digest(line: &mut String, digest: &[i64]) -> Result<(), AllocError>
    ensures { OnOk result (string_bytes line.new ≡ string_bytes line.old
        ++ digest_text digest.now) }
{
    for word in digest {
        push_word(line, word.cast_unsigned())?;
    }
    Ok(())
}

/// The eight bytes of a word, the lowest first, two digits each.
fn push_word(line: &mut String, word: u64) -> Result<(), AllocError>
    ensures { OnOk result (string_bytes line.new ≡ string_bytes line.old ++ word_text word) }
{
    push_half(line, word)?;
    push_half(line, word / 256 / 256 / 256 / 256)?;
    Ok(())
}

/// The four lowest bytes of a word, the lowest first, two digits each.
fn push_half(line: &mut String, word: u64) -> Result<(), AllocError>
    ensures { OnOk result (string_bytes line.new ≡ string_bytes line.old ++ hex 4 word) }
{
    push_byte(line, word)?;
    push_byte(line, word / 256)?;
    push_byte(line, word / 256 / 256)?;
    push_byte(line, word / 256 / 256 / 256)?;
    Ok(())
}

/// The lowest byte of a word, two digits.
fn push_byte(line: &mut String, word: u64) -> Result<(), AllocError>
    ensures { OnOk result (string_bytes line.new ≡ string_bytes line.old ++ hex 1 word) }
{
    line.push_str(digit((word / 16) % 16))?;
    line.push_str(digit(word % 16))?;
    Ok(())
}

/// A hexadecimal digit.
fn digit(n: u64) -> &'static str
    requires { n < 16 }
    ensures { result.now ≡ digit n ∷ [] }
{
    match n {
        0 => "0",
        1 => "1",
        2 => "2",
        3 => "3",
        4 => "4",
        5 => "5",
        6 => "6",
        7 => "7",
        8 => "8",
        9 => "9",
        10 => "a",
        11 => "b",
        12 => "c",
        13 => "d",
        14 => "e",
        _ => "f",
    }
}
