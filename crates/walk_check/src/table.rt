//! The table of facts: the origins of each fact after an instruction.

ghost use Rattle.std.specs.Prelude.{◌≡◌};
ghost use Rattle.ir.specs.Table as table;

use ir::{Fact, Instruction, Origins, Target};

/// The facts before an instruction that is neither a call nor a return, any of which gives the fact
/// after it.
pub fn origins(instruction: &Instruction, after: Fact) -> Origins
    ensures { result ≡ table.origins instruction.now after }
{
    match after {
        Fact::Here => Origins::One(after),
        Fact::Unwritten {
            register,
            kind,
            field,
        } => unwritten_from(instruction, register, kind, field),
        Fact::RootUnwritten { field } => root_unwritten_from(instruction, field),
        Fact::ReadRoot { field } => root_read_from(instruction, field),
        Fact::ReadField { kind, field } => field_read_from(instruction, kind, field),
        Fact::Freed => match instruction {
            Instruction::Free { .. } => Origins::One(Fact::Here),
            _ => Origins::One(after),
        },
    }
}

fn unwritten_from(instruction: &Instruction, register: u32, kind: u32, field: u32) -> Origins
    ensures { result ≡ table.unwritten_from instruction.now register kind field }
{
    let same = Origins::One(Fact::Unwritten {
        register,
        kind,
        field,
    });
    match instruction {
        Instruction::Const { to, .. }
        | Instruction::Bin { to, .. }
        | Instruction::Load { to, .. } => {
            if register == *to {
                Origins::One(Fact::Here)
            } else {
                same
            }
        }
        Instruction::Copy { to, from } => {
            if register == *to {
                Origins::One(Fact::Unwritten {
                    register: *from,
                    kind,
                    field,
                })
            } else {
                same
            }
        }
        Instruction::New { to, .. } => {
            if register == *to {
                Origins::Nowhere
            } else {
                same
            }
        }
        Instruction::Store {
            target: Target::Field {
                base,
                kind: stored,
                field: into,
                index: None,
            },
            ..
        } => {
            if register == *base && (kind == *stored && field == *into) {
                Origins::Nowhere
            } else {
                same
            }
        }
        _ => same,
    }
}

fn root_unwritten_from(instruction: &Instruction, field: u32) -> Origins
    ensures { result ≡ table.root_unwritten_from instruction.now field }
{
    let same = Origins::One(Fact::RootUnwritten { field });
    match instruction {
        Instruction::Store {
            target: Target::Root {
                field: into,
                index: None,
            },
            ..
        } => {
            if field == *into {
                Origins::Nowhere
            } else {
                same
            }
        }
        _ => same,
    }
}

fn root_read_from(instruction: &Instruction, field: u32) -> Origins
    ensures { result ≡ table.root_read_from instruction.now field }
{
    let read = Fact::ReadRoot { field };
    match instruction {
        Instruction::Load {
            target: Target::Root { field: from, .. },
            ..
        } => {
            if field == *from {
                Origins::Two(read, Fact::RootUnwritten { field })
            } else {
                Origins::One(read)
            }
        }
        _ => Origins::One(read),
    }
}

fn field_read_from(instruction: &Instruction, kind: u32, field: u32) -> Origins
    ensures { result ≡ table.field_read_from instruction.now kind field }
{
    let read = Fact::ReadField { kind, field };
    match instruction {
        Instruction::Load {
            target: Target::Field {
                base,
                kind: loaded,
                field: from,
                ..
            },
            ..
        } => {
            if kind == *loaded && field == *from {
                let unwritten = Fact::Unwritten {
                    register: *base,
                    kind,
                    field,
                };
                Origins::Two(read, unwritten)
            } else {
                Origins::One(read)
            }
        }
        _ => Origins::One(read),
    }
}
