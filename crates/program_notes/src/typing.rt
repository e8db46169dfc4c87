//! Messages of broken typing rules.

use crate::clash::{Clash, clash_at};
use crate::declared::struct_before;
use crate::names::{
    did_you_mean, fields, functions, has_name, locals, root_struct, structs, type_text,
};
use c_tree::Ast;
use c_types::{Kind, LimitKind, Program, TypeFault, ValueType};
use plain_notes::{Spelled, Told, is_one};
use pool_map::{ARRAY_LENGTH, OBJECT_WORDS, POINTED_ROOT, ROOT_WORDS};
use std::alloc::{AllocError, Global};

/// The message of a broken rule.
pub(crate) fn typing(
    alloc: Global,
    ast: &Ast,
    near: &Spelled<'_>,
    fault: TypeFault,
) -> Result<Told, AllocError> {
    let name = String::from_utf8_lossy(alloc, near.here())?;
    broken(alloc, ast, near, name.as_str(), fault)
}

/// The message of a broken rule at the token with this spelling.
fn broken(
    alloc: Global,
    ast: &Ast,
    near: &Spelled<'_>,
    name: &str,
    fault: TypeFault,
) -> Result<Told, AllocError> {
    match fault {
        TypeFault::UnknownName { .. } => unknown(alloc, ast, near, name),
        TypeFault::Twice { .. } => twice(alloc, near, name),
        TypeFault::Mismatch { .. } => mismatch(alloc, ast, near, name),
        TypeFault::NotAssignable { .. } => noted(
            alloc,
            "the left side can't be assigned to",
            "on the left stands a local, `root.f`, `p->f` or an element of an array field",
        ),
        TypeFault::Arity { .. } => arity(alloc, ast, near, name),
        TypeFault::TooBig { limit, value, .. } => too_big(alloc, ast, name, limit, value),
        TypeFault::NoRoot { .. } => no_root(alloc),
        TypeFault::BadTx { .. } => bad_tx(alloc, near, name),
        TypeFault::NoMemory => Err(AllocError),
    }
}

/// What was found, with one note.
fn noted(alloc: Global, what: &str, note: &str) -> Result<Told, AllocError> {
    Told::new(alloc, what)?.with(alloc, note)
}

fn no_root(alloc: Global) -> Result<Told, AllocError> {
    noted(
        alloc,
        "nothing declares the root",
        "write `persistent struct NAME root;` once, with a struct of yours",
    )
}

fn unknown(alloc: Global, ast: &Ast, near: &Spelled<'_>, name: &str) -> Result<Told, AllocError> {
    let last = near.before(1);
    if last == b"->".as_slice() {
        return unknown_in_object(alloc, ast, near, name);
    }
    if last == b".".as_slice() {
        return unknown_in_root(alloc, ast, near, name);
    }
    if last == b"struct".as_slice() {
        return nearest_of(alloc, "struct", near, name, &structs(alloc, ast)?);
    }
    if near.after(1) == b"(".as_slice() {
        return unknown_function(alloc, ast, near, name);
    }
    unknown_variable(alloc, ast, near, name)
}

/// The message of a name that isn't known, with the nearest of these.
fn nearest_of(
    alloc: Global,
    what: &str,
    near: &Spelled<'_>,
    name: &str,
    names: &[&[u8]],
) -> Result<Told, AllocError> {
    let told = unknown_as(alloc, what, name)?;
    told.with_some(alloc, did_you_mean(alloc, near.here(), names, "")?)
}

fn unknown_function(
    alloc: Global,
    ast: &Ast,
    near: &Spelled<'_>,
    name: &str,
) -> Result<Told, AllocError> {
    if let Some(note) = library(name) {
        return unknown_as(alloc, "function", name)?.with(alloc, note);
    }
    nearest_of(alloc, "function", near, name, &functions(alloc, ast)?)
}

fn unknown_as(alloc: Global, what: &str, name: &str) -> Result<Told, AllocError> {
    let what = format!(in alloc; "there is no {what} `{name}`")?;
    Told::new(alloc, what.as_str())
}

fn unknown_in_root(
    alloc: Global,
    ast: &Ast,
    near: &Spelled<'_>,
    name: &str,
) -> Result<Told, AllocError> {
    let Some(root) = root_struct(ast) else {
        return no_root(alloc);
    };
    let what = format!(in alloc; "the root, a `struct {root}`, has no field `{name}`")?;
    let names = fields(alloc, ast, Some(root))?;
    let told = Told::new(alloc, what.as_str())?;
    told.with_some(alloc, did_you_mean(alloc, near.here(), &names, "root.")?)
}

fn unknown_in_object(
    alloc: Global,
    ast: &Ast,
    near: &Spelled<'_>,
    name: &str,
) -> Result<Told, AllocError> {
    let Some(of) = struct_before(alloc, ast, near)? else {
        return nearest_of(alloc, "field", near, name, &fields(alloc, ast, None)?);
    };
    let of = of.as_str();
    let what = format!(in alloc; "`struct {of}` has no field `{name}`")?;
    let names = fields(alloc, ast, Some(of))?;
    let told = Told::new(alloc, what.as_str())?;
    told.with_some(alloc, did_you_mean(alloc, near.here(), &names, "")?)
}

fn unknown_variable(
    alloc: Global,
    ast: &Ast,
    near: &Spelled<'_>,
    name: &str,
) -> Result<Told, AllocError> {
    let names = locals(alloc, near)?;
    if has_name(&names, near.here()) {
        return unknown_as(alloc, "variable", name)?.with(
            alloc,
            "it is known in its own block alone, and below its declaration",
        );
    }
    if is_root_field(alloc, ast, near.here())? {
        let note = format!(in alloc; "did you mean `root.{name}`?")?;
        return unknown_as(alloc, "variable", name)?.with(alloc, note.as_str());
    }
    nearest_of(alloc, "variable", near, name, &names)
}

/// Whether the root's struct has a field of this name.
fn is_root_field(alloc: Global, ast: &Ast, name: &[u8]) -> Result<bool, AllocError> {
    let Some(root) = root_struct(ast) else {
        return Ok(false);
    };
    Ok(has_name(&fields(alloc, ast, Some(root))?, name))
}

/// What to write for a function of C's library, or of PMDK's.
const LIBRARY: [(&str, &str); 18] = [
    ("malloc", "write `pm_new(struct NAME)` for an object"),
    ("calloc", "write `pm_new(struct NAME)` for an object"),
    ("free", "write `pm_free(p)`"),
    ("assert", "write `if (!c) { abort(); }`"),
    ("exit", "a call ends with `return`, or with `abort();`"),
    ("printf", PRINTS),
    ("print", PRINTS),
    ("puts", PRINTS),
    ("memcpy", COPIES),
    ("memmove", COPIES),
    ("memset", COPIES),
    ("D_RO", "write `p->f`"),
    ("D_RW", "write `p->f`"),
    ("TX_ADD", LOGS),
    ("TX_ADD_FIELD", LOGS),
    ("TX_SET", LOGS),
    ("pmem_persist", LOGS),
    ("pmemobj_persist", LOGS),
];

const PRINTS: &str = "a program prints nothing: return the value, and a script's call answers it";

const COPIES: &str = "give each field its value: `q->f = p->f;`, in a loop for an array";

const LOGS: &str = "leave it out, and store by `=`: what has to be logged and flushed is found";

fn library(name: &str) -> Option<&'static str> {
    for (function, note) in LIBRARY {
        if name == function {
            return Some(note);
        }
    }
    None
}

fn twice(alloc: Global, near: &Spelled<'_>, name: &str) -> Result<Told, AllocError> {
    let what = format!(in alloc; "`{name}` is declared twice")?;
    let note = if near.here() == b"root".as_slice() {
        "a program has one root: put all its fields into one struct"
    } else {
        "choose another name; or leave the type out, where a value is to be assigned"
    };
    noted(alloc, what.as_str(), note)
}

fn arity(alloc: Global, ast: &Ast, near: &Spelled<'_>, name: &str) -> Result<Told, AllocError> {
    let program = Program::new(alloc, ast.items())?;
    let wanted = match program.function_named(name) {
        Some(function) => function.parameters.len() as u64,
        None => 0,
    };
    let given = match clash_at(alloc, ast, &program, near.place)? {
        Some(Clash::Call(given)) => given,
        _ => 0,
    };
    arity_told(alloc, name, wanted, given)
}

fn arity_told(alloc: Global, name: &str, wanted: u64, given: u64) -> Result<Told, AllocError> {
    let arguments = if wanted == 1 { "argument" } else { "arguments" };
    let what = format!(in alloc; "`{name}` takes {wanted} {arguments}, and is given {given}")?;
    Told::new(alloc, what.as_str())
}

fn too_big(
    alloc: Global,
    ast: &Ast,
    name: &str,
    limit: LimitKind,
    value: u64,
) -> Result<Told, AllocError> {
    let what = match limit {
        LimitKind::Struct | LimitKind::Root => words(alloc, name, limit, value)?,
        LimitKind::Pointer => pointed(alloc, ast, name, value)?,
        _ => count(alloc, limit, value)?,
    };
    let told = Told::new(alloc, what.as_str())?;
    match limit {
        LimitKind::Struct => told.with(
            alloc,
            "split it into objects that point to each other, or keep its fields in the root",
        ),
        LimitKind::Pointer => told.with(alloc, "fields of the root are written `root.f`"),
        _ => Ok(told),
    }
}

/// The message of a struct with too many words.
fn words(alloc: Global, name: &str, limit: LimitKind, value: u64) -> Result<String, AllocError> {
    match limit {
        LimitKind::Root => {
            let limit = ROOT_WORDS;
            format!(in alloc; "the root's struct has {value} words; {limit} is the limit")
        }
        _ => {
            let limit = OBJECT_WORDS;
            format!(in alloc; "`struct {name}` has {value} words; {limit} is the limit")
        }
    }
}

/// The message of a pointer to a struct with too many words; those of the root's struct are fewer.
fn pointed(alloc: Global, ast: &Ast, name: &str, value: u64) -> Result<String, AllocError> {
    let is_root = match root_struct(ast) {
        Some(root) => root == name,
        None => false,
    };
    let limit = if is_root { POINTED_ROOT } else { OBJECT_WORDS };
    format!(in alloc;
        "`struct {name}` has {value} words, so nothing points to it; {limit} is the limit"
    )
}

/// The message of a length that is too large, or of one too many of something.
fn count(alloc: Global, limit: LimitKind, value: u64) -> Result<String, AllocError> {
    let (what, most) = match limit {
        LimitKind::Structs => ("struct", 255),
        LimitKind::Functions => ("function", 1024),
        LimitKind::Parameters => ("parameter", 22),
        _ => {
            let most = ARRAY_LENGTH;
            return format!(in alloc; "the length {value} is not from 1 to {most}");
        }
    };
    format!(in alloc; "this is {what} number {value}; {most} is the limit")
}

fn bad_tx(alloc: Global, near: &Spelled<'_>, name: &str) -> Result<Told, AllocError> {
    let last = near.before(1);
    if last == b"int64_t".as_slice() && near.before(2) == b"const".as_slice() && takes_ints(near) {
        let what = format!(in alloc; "`{name}` is marked `const`, and stores or calls what does")?;
        return noted(
            alloc,
            what.as_str(),
            "a `tx const` only looks: leave `const` out where it stores",
        );
    }
    if is_one(last, &TYPE_ENDS) {
        let what = format!(in alloc; "the transaction `{name}` has a type that no script gives")?;
        return noted(
            alloc,
            what.as_str(),
            "a `tx` gives a number, and all its parameters are numbers",
        );
    }
    let what = format!(in alloc; "`{name}` is a transaction, and no function calls one")?;
    noted(
        alloc,
        what.as_str(),
        "write a function without `tx` that both call",
    )
}

/// Whether the parameters of the function whose name stands there are all ints.
fn takes_ints(near: &Spelled<'_>) -> bool {
    for place in 2..100 {
        if near.after(place) == b")".as_slice() {
            return true;
        }
        if near.after(place) == b"*".as_slice() {
            return false;
        }
    }
    true
}

/// The tokens with which a function's type ends.
const TYPE_ENDS: [&str; 4] = ["void", "int64_t", "uint64_t", "*"];

fn mismatch(alloc: Global, ast: &Ast, near: &Spelled<'_>, name: &str) -> Result<Told, AllocError> {
    let program = Program::new(alloc, ast.items())?;
    match clash_at(alloc, ast, &program, near.place)? {
        Some(clash) => clash_told(alloc, &program, name, clash),
        None => Told::new(alloc, "the types don't fit"),
    }
}

fn clash_told(
    alloc: Global,
    program: &Program<'_>,
    name: &str,
    clash: Clash,
) -> Result<Told, AllocError> {
    match clash {
        Clash::Sides(left, right) => sides(alloc, program, name, left, right),
        Clash::Operand(ty) | Clash::Step(ty) => one(alloc, program, name, NUMBER, ty),
        Clash::Arrow(ty) | Clash::Free(ty) => one(alloc, program, name, POINTER, ty),
        Clash::Index(kind, index) => indexed(alloc, program, kind, index),
        Clash::Array => array(alloc, name),
        Clash::Call(_) => void(alloc, name),
        Clash::Argument { wanted, given } => argument(alloc, program, wanted, given),
        Clash::Gives { target, given } => gives(alloc, program, name, target, given),
        Clash::Returns { wanted, given } => returns(alloc, program, wanted, given),
    }
}

const NUMBER: &str = "takes a number, and is given";

const POINTER: &str = "takes a pointer, and is given";

fn array(alloc: Global, name: &str) -> Result<Told, AllocError> {
    let what = format!(in alloc; "`{name}` is an array field, and no value")?;
    noted(alloc, what.as_str(), "give it an index, as `root.t[i]`")
}

fn void(alloc: Global, name: &str) -> Result<Told, AllocError> {
    let what = format!(in alloc; "`{name}` gives no value: it is `void`")?;
    Told::new(alloc, what.as_str())
}

fn one(
    alloc: Global,
    program: &Program<'_>,
    name: &str,
    takes: &str,
    ty: ValueType,
) -> Result<Told, AllocError> {
    let given = type_text(alloc, program, ty)?;
    let given = given.as_str();
    let what = format!(in alloc; "`{name}` {takes} {given}")?;
    Told::new(alloc, what.as_str())
}

/// What was found of two types: each with the words before it.
fn two(
    alloc: Global,
    program: &Program<'_>,
    first: (&str, ValueType),
    second: (&str, ValueType),
) -> Result<Told, AllocError> {
    let one = type_text(alloc, program, first.1)?;
    let other = type_text(alloc, program, second.1)?;
    pair(alloc, [first.0, one.as_str(), second.0, other.as_str()])
}

fn pair(alloc: Global, parts: [&str; 4]) -> Result<Told, AllocError> {
    let mut what = String::new(alloc);
    for part in parts {
        what.push_str(part)?;
    }
    Told::new(alloc, what.as_str())
}

fn sides(
    alloc: Global,
    program: &Program<'_>,
    name: &str,
    left: ValueType,
    right: ValueType,
) -> Result<Told, AllocError> {
    let head = format!(in alloc; "`{name}` joins ")?;
    let told = two(alloc, program, (head.as_str(), left), (" and ", right))?;
    if name == "?" {
        return told.with(
            alloc,
            "its sides are two numbers, or two pointers to one struct, or a pointer and `NULL`",
        );
    }
    if name != "==" && name != "!=" {
        return told.with(
            alloc,
            "it takes two numbers: pointers have no arithmetic and no order",
        );
    }
    if is_with_number(left, right) || is_with_number(right, left) {
        return compared(alloc, told, name);
    }
    told.with(
        alloc,
        "it compares two numbers, or two pointers to one struct, or a pointer and `NULL`",
    )
}

/// The message of a pointer that is compared with a number.
fn compared(alloc: Global, told: Told, name: &str) -> Result<Told, AllocError> {
    let note = format!(in alloc;
        "a pointer is compared with `NULL`, as `p {name} NULL`, and never with 0"
    )?;
    told.with(alloc, note.as_str())
}

fn is_with_number(left: ValueType, right: ValueType) -> bool {
    is_pointer(left) && is_int(right)
}

fn is_int(ty: ValueType) -> bool {
    matches!(ty, ValueType::Int(_))
}

fn is_pointer(ty: ValueType) -> bool {
    matches!(ty, ValueType::Pointer(_))
}

fn argument(
    alloc: Global,
    program: &Program<'_>,
    wanted: ValueType,
    given: ValueType,
) -> Result<Told, AllocError> {
    let told = two(
        alloc,
        program,
        ("the parameter is ", wanted),
        (", and the argument ", given),
    )?;
    null_for(alloc, told, given)
}

fn gives(
    alloc: Global,
    program: &Program<'_>,
    name: &str,
    target: ValueType,
    given: ValueType,
) -> Result<Told, AllocError> {
    if name != "=" {
        return sides(alloc, program, name, target, given);
    }
    let told = two(
        alloc,
        program,
        ("the left side is ", target),
        (", and the right side ", given),
    )?;
    if is_pointer(target) {
        return null_for(alloc, told, given);
    }
    Ok(told)
}

/// The message, with a note where a number stands for a pointer.
fn null_for(alloc: Global, told: Told, given: ValueType) -> Result<Told, AllocError> {
    if is_int(given) {
        return told.with(
            alloc,
            "no number is a pointer: the pointer to nothing is `NULL`",
        );
    }
    Ok(told)
}

fn indexed(
    alloc: Global,
    program: &Program<'_>,
    kind: Kind,
    index: ValueType,
) -> Result<Told, AllocError> {
    match kind {
        Kind::Value(ty) => {
            let told = one(
                alloc,
                program,
                "[",
                "takes an array field, and is given",
                ty,
            )?;
            told.with(alloc, "arrays are fields: `root.t[i]` and `p->t[i]`")
        }
        Kind::Array { .. } => one(
            alloc,
            program,
            "[",
            "takes a number as index, and is given",
            index,
        ),
    }
}

fn returns(
    alloc: Global,
    program: &Program<'_>,
    wanted: Option<ValueType>,
    given: Option<ValueType>,
) -> Result<Told, AllocError> {
    match (wanted, given) {
        (None, _) => noted(alloc, "a `void` function gives no value", "write `return;`"),
        (Some(wanted), None) => no_value(alloc, program, wanted),
        (Some(wanted), Some(ty)) => another_value(alloc, program, wanted, ty),
    }
}

fn no_value(alloc: Global, program: &Program<'_>, wanted: ValueType) -> Result<Told, AllocError> {
    let wanted = type_text(alloc, program, wanted)?;
    let wanted = wanted.as_str();
    let what = format!(in alloc; "the function gives {wanted}, and this `return` has no value")?;
    Told::new(alloc, what.as_str())
}

fn another_value(
    alloc: Global,
    program: &Program<'_>,
    wanted: ValueType,
    ty: ValueType,
) -> Result<Told, AllocError> {
    let told = two(
        alloc,
        program,
        ("the function gives ", wanted),
        (", and this `return` gives ", ty),
    )?;
    if is_int(wanted) && ty == ValueType::Null {
        return told.with(alloc, "`NULL` is a pointer: write 0");
    }
    null_for(alloc, told, ty)
}
