//! Numbers and names of traps, texts of pools, and a pool through a list of calls, beside what each
//! must be.

use nvm_base::Text;
use pool_map::{
    FieldShape, FieldShapes, Pool, Shapes, StructShape, StructShapes, TrapKind, fits, show_text,
};
use std::alloc::{AllocError, Global};
use std::process::Abort;
use std::test::Fail;

#[test]
fn traps(rt: HostRuntime) {
    for (number, name) in [
        (0, ""),
        (1, "null"),
        (2, "stale"),
        (3, "index"),
        (4, "divide"),
        (5, "steps"),
        (6, "abort"),
        (7, "logfull"),
        (8, "depth"),
        (9, ""),
    ] {
        match TrapKind::of_number(number) {
            Some(kind) => {
                assert_eq!(rt; kind.name(), name, "name of {number}");
                assert_eq!(rt; kind.number(), number);
            }
            None => assert_eq!(rt; name, "", "no trap {number}"),
        }
    }
}

fn field(alloc: Global, name: &str, length: Option<u64>) -> Result<FieldShape, AllocError> {
    let mut text = Text::new(alloc);
    text.push(name)?;
    Ok(FieldShape {
        name: text,
        unsigned: false,
        length,
    })
}

/// A root of a number, an array of two and a pointer, and a struct of a number and an array of
/// three.
fn shapes(alloc: Global) -> Result<Shapes, AllocError> {
    let mut root = FieldShapes::new(alloc);
    root.push(field(alloc, "n", None)?)?;
    root.push(field(alloc, "t", Some(2))?)?;
    root.push(field(alloc, "head", None)?)?;
    let mut fields = FieldShapes::new(alloc);
    fields.push(field(alloc, "v", None)?)?;
    fields.push(field(alloc, "a", Some(3))?)?;
    let mut name = Text::new(alloc);
    name.push("Node")?;
    let mut structs = StructShapes::new(alloc);
    structs.push(StructShape { name, fields })?;
    Ok(Shapes { root, structs })
}

/// The pool fits the shapes, and has this text.
fn shows(rt: &impl Abort, alloc: Global, pool: &Pool, want: &str) -> Result<(), AllocError> {
    let shapes = shapes(alloc)?;
    assert!(rt; fits(&shapes, pool), "fits {want}");
    let text = show_text(alloc, &shapes, pool)?;
    assert_eq!(rt; text.as_str(), want);
    Ok(())
}

#[test]
fn calls(rt: HostRuntime) -> Result<(), Fail> {
    let alloc = rt.alloc();
    written(&rt, alloc)?;
    two_objects(&rt, alloc)?;
    used_again(&rt, alloc)?;
    Ok(())
}

/// Root words and fields take what is written.
fn written(rt: &impl Abort, alloc: Global) -> Result<(), AllocError> {
    let mut pool = Pool::empty(alloc, 4, 3)?;
    shows(rt, alloc, &pool, "root n=0 t=[0,0] head=0\n")?;
    pool.root_set(0, i64::MIN);
    pool.root_set(2, -1);
    pool.new_object(2, 1, 4)?;
    pool.set(2, 0, i64::MAX);
    let want = "root n=-9223372036854775808 t=[0,-1] head=0\n\
         slot 2 Node v=9223372036854775807 a=[0,0,0]\n";
    shows(rt, alloc, &pool, want)
}

/// A freed slot is the least free one, and the other object stays, in the copy too.
fn two_objects(rt: &impl Abort, alloc: Global) -> Result<(), AllocError> {
    let mut pool = Pool::empty(alloc, 4, 3)?;
    pool.new_object(1, 1, 4)?;
    pool.new_object(2, 1, 4)?;
    pool.free(1);
    let copy = pool.copy()?;
    for (slot, kind) in [(0, None), (1, None), (2, Some(1)), (3, None), (4, None)] {
        assert_eq!(rt; copy.kind(slot), kind, "kind in {slot}");
    }
    assert_eq!(rt; copy.least_free(), Some(1));
    shows(
        rt,
        alloc,
        &copy,
        "root n=0 t=[0,0] head=0\nslot 2 Node v=0 a=[0,0,0]\n",
    )
}

/// An object in a slot that was used has words that are 0.
fn used_again(rt: &impl Abort, alloc: Global) -> Result<(), AllocError> {
    let mut pool = Pool::empty(alloc, 0, 1)?;
    pool.new_object(1, 1, 2)?;
    pool.set(1, 1, 5);
    assert_eq!(rt; pool.get(1, 1), 5);
    assert_eq!(rt; pool.least_free(), None);
    pool.free(1);
    pool.new_object(1, 1, 2)?;
    assert_eq!(rt; pool.get(1, 1), 0);
    Ok(())
}
