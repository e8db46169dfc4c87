//! What is reported of a program that is refused.

ghost use Rattle.std.specs.Prelude.{◌≡◌};
ghost use Rattle.cnvm_compile.specs.Told.{by_lexer, by_constants, by_parser, by_types};
ghost use Rattle.cnvm_compile.specs.Told.{told_of};

use crate::complaint::Complaint;
use crate::front_end::ProgramFault;
use c_constants::ConstFault;
use c_lexer::LexFault;
use c_parser::ParseFault;
use c_types::TypeFault;

/// What is reported of a program that is refused.
#[derive(Clone, Copy)]
pub enum Told {
    /// It has too many bytes, or too many tokens.
    Long,
    /// What is wrong at a line.
    At(u64, Complaint),
    /// Nothing is reported, since there was no memory.
    NoMemory,
}

/// What is told of a refused program on standard output.
pub fn told_of(fault: ProgramFault) -> Told
    ensures { result ≡ told_of fault }
{
    match fault {
        ProgramFault::Lex(fault) => by_lexer(fault),
        ProgramFault::Constants(fault) => by_constants(fault),
        ProgramFault::Parse(fault, line) => by_parser(fault, line),
        ProgramFault::Types(fault) => by_types(fault),
        ProgramFault::NoMemory => Told::NoMemory,
    }
}

fn by_lexer(fault: LexFault) -> Told
    ensures { result ≡ by_lexer fault }
{
    match fault {
        LexFault::BadByte { line, .. } => Told::At(line, Complaint::BadByte),
        LexFault::BadNumber { line, .. } => Told::At(line, Complaint::BadNumber),
        LexFault::OpenComment { line, .. } => Told::At(line, Complaint::OpenComment),
        LexFault::TooLong => Told::Long,
        LexFault::NoMemory => Told::NoMemory,
    }
}

fn by_constants(fault: ConstFault) -> Told
    ensures { result ≡ by_constants fault }
{
    match fault {
        ConstFault::Syntax { line, .. } => Told::At(line, Complaint::Syntax),
        ConstFault::TooDeep { line, .. } => Told::At(line, Complaint::TooDeep),
        ConstFault::Twice { line, .. } => Told::At(line, Complaint::Twice),
        ConstFault::UnknownName { line, .. } => Told::At(line, Complaint::UnknownName),
        ConstFault::BadNumber { line, .. } => Told::At(line, Complaint::BadNumber),
        ConstFault::TooLong => Told::Long,
        ConstFault::NoMemory => Told::NoMemory,
    }
}

fn by_parser(fault: ParseFault, line: u64) -> Told
    ensures { result ≡ by_parser fault line }
{
    match fault {
        ParseFault::Syntax(_) => Told::At(line, Complaint::Syntax),
        ParseFault::TooDeep(_) => Told::At(line, Complaint::TooDeep),
        ParseFault::NoMemory => Told::NoMemory,
    }
}

fn by_types(fault: TypeFault) -> Told
    ensures { result ≡ by_types fault }
{
    match fault {
        TypeFault::UnknownName { line, .. } => Told::At(line, Complaint::UnknownName),
        TypeFault::Twice { line, .. } => Told::At(line, Complaint::Twice),
        TypeFault::Mismatch { line, .. } => Told::At(line, Complaint::Mismatch),
        TypeFault::NotAssignable { line, .. } => Told::At(line, Complaint::NotAssignable),
        TypeFault::Arity { line, .. } => Told::At(line, Complaint::Arity),
        TypeFault::TooBig {
            line,
            limit,
            value,
            ..
        } => Told::At(line, Complaint::TooBig(limit, value)),
        TypeFault::NoRoot { line, .. } => Told::At(line, Complaint::NoRoot),
        TypeFault::BadTx { line, .. } => Told::At(line, Complaint::BadTx),
        TypeFault::NoMemory => Told::NoMemory,
    }
}
