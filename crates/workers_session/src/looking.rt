//! What a compartment of the device holds, seen through a window. Nothing is changed.

ghost use Rattle.std.specs.Prelude.{◌≡◌, ◌+◌, ◌≤◌, ◌<◌, true, IfOk};
ghost use Rattle.cache_model.specs.Cache.{view};
ghost use Rattle.c_types.specs.Shapes.{shapes_of};
ghost use Rattle.pool_layout.specs.Sizes.{pool_lines};
ghost use Rattle.pool_layout.specs.declared.places.TheConstants as place;
ghost use Rattle.pool_workers.specs.Compartment.{first_line};
ghost use Rattle.pool_workers.specs.Crew.{compartment, HasCompartment, standing_at};
ghost use Rattle.cnvm_session.specs.Marks.{owes_marked, owes_unsigned};
ghost use Rattle.workers_session.specs.Looks.{IsPoolText};

use cnvm_session::{Program, owes_marked, owes_unsigned, pool_text};
use nvm_base::Text;
use pm_machine::Image;
use pmem::{Pmem, PmemWork};
use pool_layout::{DONE, LAST};
use pool_workers::{Origin, Window};
use std::alloc::{AllocError, Global};
use tx_run::{Standing, assess};

/// Whether the worker's compartment takes a transaction.
pub(crate) fn standing_of<P: Pmem + Drop, O: Origin>(
    image: &Image,
    worker: u32,
    dev: &mut P,
) -> Standing
    requires worker { worker < 8 }
    requires first { O.first ≡ first_line image.now.parts.sizes worker }
    requires lines { O.lines ≡ pool_lines image.now.parts.sizes }
    requires whole { O.whole ≡ P.device dev.old }
    requires inside { HasCompartment image.now worker (P.device dev.old) }
    ensures on { (P.device dev.old).on ≡ true
        → result ≡ standing_at image.now worker (P.device dev.old) }
    ensures same { P.device dev.new ≡ P.device dev.old }
{
    let window: Window<P, O> = Window::new(dev.take(), image.sizes(), worker);
    let standing = assess(&window);
    *dev = window.into_device();
    standing
}

/// Whether the worker's compartment owes a transaction that is marked, and one that returns
/// `uint64_t`.
pub(crate) fn owed_in<P: Pmem + Drop, O: Origin>(
    program: &Program,
    worker: u32,
    dev: &mut P,
) -> (bool, bool)
    requires worker { worker < 8 }
    requires first { O.first ≡ first_line program.now.image.parts.sizes worker }
    requires lines { O.lines ≡ pool_lines program.now.image.parts.sizes }
    requires whole { O.whole ≡ P.device dev.old }
    requires inside { HasCompartment program.now.image worker (P.device dev.old) }
    requires on { (P.device dev.old).on ≡ true }
    ensures marked { result.0 ≡ owes_marked program.now
        (compartment program.now.image worker (P.device dev.old)) }
    ensures unsigned { result.1 ≡ owes_unsigned program.now
        (compartment program.now.image worker (P.device dev.old)) }
    ensures same { P.device dev.new ≡ P.device dev.old }
{
    let window: Window<P, O> = Window::new(dev.take(), program.image.sizes(), worker);
    let marked = owes_marked(program, &window);
    let unsigned = owes_unsigned(program, &window);
    *dev = window.into_device();
    (marked, unsigned)
}

/// The text of the pool in the worker's compartment.
pub(crate) fn text_of<P: Pmem + Drop, O: Origin>(
    alloc: Global,
    program: &Program,
    worker: u32,
    dev: &mut P,
) -> Result<Text, AllocError>
    requires worker { worker < 8 }
    requires first { O.first ≡ first_line program.now.image.parts.sizes worker }
    requires lines { O.lines ≡ pool_lines program.now.image.parts.sizes }
    requires whole { O.whole ≡ P.device dev.old }
    requires inside { HasCompartment program.now.image worker (P.device dev.old) }
    ensures on { (P.device dev.old).on ≡ true
        → IfOk result (λ text. IsPoolText program.now worker (P.device dev.old) text) }
    ensures same { P.device dev.new ≡ P.device dev.old }
{
    let window: Window<P, O> = Window::new(dev.take(), program.image.sizes(), worker);
    let text = pool_text(alloc, program, &window);
    *dev = window.into_device();
    text
}

/// How many transactions are finished in the worker's compartment, and the value of the last.
pub(crate) fn last_of<P: Pmem + Drop, O: Origin>(
    image: &Image,
    worker: u32,
    dev: &mut P,
) -> (i64, i64)
    requires worker { worker < 8 }
    requires first { O.first ≡ first_line image.now.parts.sizes worker }
    requires lines { O.lines ≡ pool_lines image.now.parts.sizes }
    requires whole { O.whole ≡ P.device dev.old }
    requires inside { HasCompartment image.now worker (P.device dev.old) }
    ensures done { (P.device dev.old).on ≡ true → result.0
        ≡ view (compartment image.now worker (P.device dev.old)).cache place.DONE }
    ensures value { (P.device dev.old).on ≡ true → result.1
        ≡ view (compartment image.now worker (P.device dev.old)).cache place.LAST }
    ensures same { P.device dev.new ≡ P.device dev.old }
{
    let window: Window<P, O> = Window::new(dev.take(), image.sizes(), worker);
    let done = window.load(DONE).unwrap_or(0);
    let value = window.load(LAST).unwrap_or(0);
    *dev = window.into_device();
    (done, value)
}
