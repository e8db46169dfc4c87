//! The line that reports a refused program: `program line L KIND`.

ghost use Rattle.std.specs.Prelude.{◌≡◌, IfOk, string_bytes};
ghost use Rattle.cnvm_compile.specs.ComplaintText.{complaint_line, program_line, complaint_kind};
ghost use Rattle.cnvm_compile.specs.ComplaintText.{limit_name};

use c_types::LimitKind;
use std::alloc::{AllocError, Global};

/// What is wrong at a line.
#[derive(Clone, Copy)]
pub enum Complaint {
    BadByte,
    BadNumber,
    OpenComment,
    Syntax,
    TooDeep,
    UnknownName,
    Twice,
    Mismatch,
    NotAssignable,
    Arity,
    /// The limit, and the value that breaks it.
    TooBig(LimitKind, u64),
    NoRoot,
    BadTx,
}

/// The line that reports a complaint.
pub fn complaint_line(alloc: Global, line: u64, complaint: Complaint) -> Result<String, AllocError>
    ensures { IfOk result (λ text. string_bytes text ≡ complaint_line line complaint) }
{
    match complaint {
        Complaint::TooBig(limit, value) => {
            let kind = limit_kind(alloc, limit, value)?;
            line_of(alloc, line, kind.as_str())
        }
        Complaint::BadByte => line_of(alloc, line, "bad byte"),
        Complaint::BadNumber => line_of(alloc, line, "bad number"),
        Complaint::OpenComment => line_of(alloc, line, "open comment"),
        Complaint::Syntax => line_of(alloc, line, "syntax"),
        Complaint::TooDeep => line_of(alloc, line, "too deep"),
        Complaint::UnknownName => line_of(alloc, line, "unknown name"),
        Complaint::Twice => line_of(alloc, line, "twice"),
        Complaint::Mismatch => line_of(alloc, line, "mismatch"),
        Complaint::NotAssignable => line_of(alloc, line, "not assignable"),
        Complaint::Arity => line_of(alloc, line, "arity"),
        Complaint::NoRoot => line_of(alloc, line, "no root"),
        Complaint::BadTx => line_of(alloc, line, "bad tx"),
    }
}

/// The line for a kind of complaint.
fn line_of(alloc: Global, line: u64, kind: &str) -> Result<String, AllocError>
    ensures { IfOk result (λ text. string_bytes text ≡ program_line line kind.now) }
{
    format!(in alloc; "program line {line} {kind}\n")
}

/// The kind of a broken limit.
fn limit_kind(alloc: Global, limit: LimitKind, value: u64) -> Result<String, AllocError>
    ensures { IfOk result (λ text.
        string_bytes text ≡ complaint_kind (Complaint.TooBig limit value)) }
{
    let name = limit_name(limit);
    format!(in alloc; "too big {name} {value}")
}

/// The limit's name.
fn limit_name(limit: LimitKind) -> &'static str
    ensures { result.now ≡ limit_name limit }
{
    match limit {
        LimitKind::Array => "array",
        LimitKind::Struct => "struct",
        LimitKind::Root => "root",
        LimitKind::Pointer => "pointer",
        LimitKind::Structs => "structs",
        LimitKind::Functions => "functions",
        LimitKind::Parameters => "parameters",
    }
}
