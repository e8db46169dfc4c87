//! Sources and sinks that fail at their first, their second and their last byte.

ghost use Rattle.std.specs.Prelude.{◌≡◌, ◌<◌};

use crate::program::{COUNTER, called_image};
use crate::runs::{Fails, NONE, run};
use cnvm_cli::Status;
use nvm_base::Steps;
use pmem::SparsePmem;
use std::alloc::{AllocError, Global};
use std::marker::Brand;
use std::sync::ledger::{Blank, Ledger};
use std::test::Fail;

/// Where bytes come from, and where they go.
#[derive(Clone, Copy, Debug, PartialEq, Eq)]
enum Port {
    Program,
    Script,
    ImageIn,
    Out,
    ImageOut,
}

/// The failure of the port's read or write with this number.
fn fails_at(port: Port, at: u64) -> Fails {
    let mut fails = NONE;
    match port {
        Port::Program => fails.program = at,
        Port::Script => fails.script = at,
        Port::ImageIn => fails.image_in = at,
        Port::Out => fails.out = at,
        Port::ImageOut => fails.image_out = at,
    }
    fails
}

/// How a run ends if the port fails.
fn status_of(port: Port) -> Status {
    match port {
        Port::Program | Port::Script | Port::ImageIn => Status::ReadFault,
        Port::Out | Port::ImageOut => Status::WriteFault,
    }
}

/// A port, the number of its read or write that fails, and how many bytes of the output and of the
/// image are then written.
type Row = (Port, u64, usize, usize);

/// A call on a new pool that is saved. The program has 117 bytes, the script 11, the output 10 and
/// the image 640; a source's last read finds its end.
const SAVED: [Row; 12] = [
    (Port::Program, 0, 0, 0),
    (Port::Program, 1, 0, 0),
    (Port::Program, 117, 0, 0),
    (Port::Script, 0, 0, 0),
    (Port::Script, 1, 0, 0),
    (Port::Script, 11, 0, 0),
    (Port::Out, 0, 0, 0),
    (Port::Out, 1, 1, 0),
    (Port::Out, 9, 9, 0),
    (Port::ImageOut, 0, 10, 0),
    (Port::ImageOut, 1, 10, 1),
    (Port::ImageOut, 639, 10, 639),
];

/// A call on the pool of that image. The output has 25 bytes.
const OPENED: [Row; 12] = [
    (Port::Program, 0, 0, 0),
    (Port::Program, 1, 0, 0),
    (Port::Program, 117, 0, 0),
    (Port::Script, 0, 0, 0),
    (Port::Script, 1, 0, 0),
    (Port::Script, 11, 0, 0),
    (Port::ImageIn, 0, 0, 0),
    (Port::ImageIn, 1, 0, 0),
    (Port::ImageIn, 640, 0, 0),
    (Port::Out, 0, 0, 0),
    (Port::Out, 1, 1, 0),
    (Port::Out, 24, 24, 0),
];

/// The words of a run, its texts, and what it writes: the output and the image.
#[derive(Clone, Copy)]
struct Whole<'a> {
    more: &'a str,
    script: &'a str,
    image: &'a [u8],
    out: &'a str,
    saved: &'a [u8],
}

/// Whether the bytes have this length and are the first ones of the whole.
fn is_front(bytes: &[u8], count: usize, whole: &[u8]) -> bool {
    bytes.len() == count && whole.starts_with(bytes)
}

/// Whether a run with these failures ends as the row says, with the first bytes of what a run
/// without failures writes.
fn ends<L: Ledger>(
    alloc: Global,
    whole: Whole,
    fails: Fails,
    wanted: (Status, usize, usize),
    steps: &mut Steps<L>,
) -> Result<bool, AllocError> {
    let more = [whole.more, "Z"];
    let dev = SparsePmem::new(alloc);
    let ended = run(
        alloc,
        &more,
        COUNTER,
        whole.script,
        whole.image,
        fails,
        dev,
        steps,
    )?;
    let (status, out, saved) = wanted;
    Ok(
        ended.status == status
            && is_front(&ended.out, out, whole.out.as_bytes())
            && is_front(&ended.image, saved, whole.saved),
    )
}

/// The first row whose run ends differently.
fn wrong_row<L: Ledger>(
    alloc: Global,
    whole: Whole,
    rows: &[Row],
    steps: &mut Steps<L>,
) -> Result<Option<Row>, AllocError> {
    for row in rows {
        let (port, at, out, saved) = *row;
        let wanted = (status_of(port), out, saved);
        if !ends(alloc, whole, fails_at(port, at), wanted, steps)? {
            return Ok(Some(*row));
        }
    }
    Ok(None)
}

/// A run that saves its pool: whether it ends well if nothing fails, and the first row that ends
/// differently.
fn saves<L: Ledger>(
    alloc: Global,
    steps: &mut Steps<L>,
) -> Result<(bool, Option<Row>), AllocError> {
    let image = called_image(alloc)?;
    let whole = Whole {
        more: "--save",
        script: "call inc 5\n",
        image: &[],
        out: "= 5 log 1\n",
        saved: image.as_slice(),
    };
    let done = ends(alloc, whole, NONE, (Status::Done, 10, 640), steps)?;
    Ok((done, wrong_row(alloc, whole, &SAVED, steps)?))
}

/// The same for a run that opens an image.
fn opens<L: Ledger>(
    alloc: Global,
    steps: &mut Steps<L>,
) -> Result<(bool, Option<Row>), AllocError> {
    let image = called_image(alloc)?;
    let whole = Whole {
        more: "--open",
        script: "call inc 1\n",
        image: image.as_slice(),
        out: "recovered none\n= 6 log 1\n",
        saved: &[],
    };
    let done = ends(alloc, whole, NONE, (Status::Done, 25, 0), steps)?;
    Ok((done, wrong_row(alloc, whole, &OPENED, steps)?))
}

/// What a run shows: whether it ends well if nothing fails, and the first row that ends
/// differently.
type Shown = (bool, Option<Row>);

/// Both runs.
fn both<L: Ledger>(alloc: Global, blank: Blank) -> Result<(Shown, Shown), AllocError>
    requires name { blank.name ≡ L.name }
    requires parts { blank.parts ≡ L.parts }
    requires some { 0 < blank.parts }
{
    let mut steps: Steps<L> = Steps::new(blank);
    let saved = saves(alloc, &mut steps)?;
    let opened = opens(alloc, &mut steps)?;
    Ok((saved, opened))
}

#[test]
fn each_port_may_fail(rt: HostRuntime) -> Result<(), Fail> {
    let shown = both::<Brand>(rt.alloc(), Blank::new(1))?;
    assert_eq!(rt; shown, ((true, None), (true, None)));
    Ok(())
}
