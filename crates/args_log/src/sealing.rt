//! Sealing a call.

ghost use Rattle.std.specs.Prelude.{◌≡◌, ◌≤◌, ◌+◌, ◌<◌, ◌++◌, [], ◌∷◌, ℕ, suc, pos, true, false};
ghost use Rattle.std.specs.Prelude.{OnOk, IfErr, length, take};
ghost use Rattle.std.specs.Int.{w64, cast_signed};
ghost use Rattle.cache_model.specs.Cache.{view};
ghost use Rattle.cache_model.specs.Event.{Store, Fence};
ghost use Rattle.pmem.specs.Played.{PlaysAll, PlaysPart};
ghost use Rattle.pmem.specs.declared.answer.Phase.TheVariants as at_phase;
ghost use Rattle.pool_layout.specs.declared.places.TheConstants.{ARGUMENTS, DONE, FIRST_ARGUMENT};
ghost use Rattle.args_log.specs.Next.{number_after};
ghost use Rattle.args_log.specs.Seal.{stores_from, flushes_from, payload_lines, payload_events};
ghost use Rattle.args_log.specs.Seal.{unsealed_events, sealing_events, seal_events};
ghost use Rattle.args_log.specs.Sealing.{Seals};

use crate::following_number::following;
use pmem::events::{fence, flush, store};
use pmem::{Phase, PmemWork, Refusal};
use pool_layout::{ARGUMENTS, DONE, FIRST_ARGUMENT, FUNCTION, SEAL};

/// The answer of a seal. `Off` has the phase at the power cut: `Sealing` if the seal was stored,
/// else `Unsealed`.
#[derive(Clone, Copy, Drop)]
pub enum SealAnswer {
    Done,
    Off(Phase),
    Failed,
    NoMemory,
}

/// Stores the arguments after the function, in order.
fn store_arguments<P: PmemWork>(dev: &mut P, args: &[i64]) -> Result<(), Refusal>
    requires few { length args.now ≤ ARGUMENTS }
    requires lines { 6 ≤ (P.device dev.old).lines }
    ensures done { OnOk result (PlaysAll (P.device dev.old) (stores_from FIRST_ARGUMENT args.now)
        (P.device dev.new)) }
    ensures refused { IfErr result
        (λ why. PlaysPart why (P.device dev.old) (stores_from FIRST_ARGUMENT args.now)
        (P.device dev.new)) }
    ensures lines { (P.device dev.new).lines ≡ (P.device dev.old).lines }
{
    for (k, arg) in args.iter().enumerate() {
        if let Err(why) = store(dev, FIRST_ARGUMENT + k as u64, *arg) {
            return Err(why);
        }
    }
    Ok(())
}

/// Flushes `count` lines from line 3 on, in order.
fn flush_payload<P: PmemWork>(dev: &mut P, count: u64) -> Result<(), Refusal>
    requires few { count ≤ 3 }
    requires lines { 6 ≤ (P.device dev.old).lines }
    ensures done { OnOk result (PlaysAll (P.device dev.old) (flushes_from 3 count)
        (P.device dev.new)) }
    ensures refused { IfErr result (λ why. PlaysPart why (P.device dev.old) (flushes_from 3 count)
        (P.device dev.new)) }
    ensures lines { (P.device dev.new).lines ≡ (P.device dev.old).lines }
{
    for k in 0..count {
        if let Err(why) = flush(dev, 3 + k) {
            return Err(why);
        }
    }
    Ok(())
}

/// Stores the function and its arguments, and makes them durable.
#[tactic(auto, using(pmem::proofs::Glue::all_append, pmem::proofs::Glue::part_left, pmem::proofs::Glue::part_right), unfolding(crate::specs::Seal::payload_events))]
fn play_payload<P: PmemWork>(dev: &mut P, function: i64, args: &[i64]) -> Result<(), Refusal>
    requires few { length args.now ≤ ARGUMENTS }
    requires lines { 6 ≤ (P.device dev.old).lines }
    ensures done { OnOk result (PlaysAll (P.device dev.old) (payload_events function args.now)
        (P.device dev.new)) }
    ensures refused { IfErr result
        (λ why. PlaysPart why (P.device dev.old) (payload_events function args.now)
        (P.device dev.new)) }
    ensures lines { (P.device dev.new).lines ≡ (P.device dev.old).lines }
{
    store(dev, FUNCTION, function)?;
    store_arguments(dev, args)?;
    flush_payload(dev, args.len() as u64 / 8 + 1)?;
    fence(dev)
}

/// Plays all events up to and including the store of the seal.
#[tactic(auto, using(pmem::proofs::Glue::all_append, pmem::proofs::Glue::part_left, pmem::proofs::Glue::part_right), unfolding(crate::specs::Seal::unsealed_events))]
fn play_unsealed<P: PmemWork>(
    dev: &mut P,
    function: i64,
    args: &[i64],
    number: i64,
) -> Result<(), Refusal>
    requires few { length args.now ≤ ARGUMENTS }
    requires lines { 6 ≤ (P.device dev.old).lines }
    ensures done { OnOk result (PlaysAll (P.device dev.old)
        (unsealed_events function args.now number) (P.device dev.new)) }
    ensures refused { IfErr result
        (λ why. PlaysPart why (P.device dev.old) (unsealed_events function args.now number)
        (P.device dev.new)) }
    ensures lines { (P.device dev.new).lines ≡ (P.device dev.old).lines }
{
    play_payload(dev, function, args)?;
    store(dev, SEAL, number)
}

/// Plays the events after the store of the seal.
#[tactic(auto, unfolding(crate::specs::Seal::sealing_events))]
fn play_sealing<P: PmemWork>(dev: &mut P) -> Result<(), Refusal>
    requires lines { 6 ≤ (P.device dev.old).lines }
    ensures done { OnOk result (PlaysAll (P.device dev.old) sealing_events (P.device dev.new)) }
    ensures refused { IfErr result
        (λ why. PlaysPart why (P.device dev.old) sealing_events (P.device dev.new)) }
    ensures lines { (P.device dev.new).lines ≡ (P.device dev.old).lines }
{
    flush(dev, 5)?;
    fence(dev)
}

/// Seals a record of a function and its arguments.
#[tactic(auto, using(pmem::proofs::Glue::all_append, pmem::proofs::Glue::part_left, pmem::proofs::Glue::part_right), unfolding(crate::specs::Seal::seal_events))]
fn play_seal<P: PmemWork>(dev: &mut P, function: i64, args: &[i64], number: i64) -> SealAnswer
    requires few { length args.now ≤ ARGUMENTS }
    requires lines { 6 ≤ (P.device dev.old).lines }
    ensures played { Seals result (P.device dev.old) function args.now number (P.device dev.new) }
    ensures lines { (P.device dev.new).lines ≡ (P.device dev.old).lines }
{
    match play_unsealed(dev, function, args, number) {
        Err(Refusal::Off) => return SealAnswer::Off(Phase::Unsealed),
        Err(Refusal::Failed) => return SealAnswer::Failed,
        Err(Refusal::NoMemory) => return SealAnswer::NoMemory,
        Ok(()) => {}
    }
    match play_sealing(dev) {
        Err(Refusal::Off) => SealAnswer::Off(Phase::Sealing),
        Err(Refusal::Failed) => SealAnswer::Failed,
        Err(Refusal::NoMemory) => SealAnswer::NoMemory,
        Ok(()) => SealAnswer::Done,
    }
}

/// The arguments that a record can hold.
#[tactic(auto, using(std::proofs::lemmas::List::take_all))]
fn recorded(args: &[i64]) -> &[i64]
    ensures value { result.now ≡ take ARGUMENTS args.now }
    ensures few { length result.now ≤ ARGUMENTS }
{
    if args.len() <= ARGUMENTS {
        args
    } else {
        &args[..ARGUMENTS]
    }
}

/// Seals the call of a transaction, whose number is one more than that of the finished ones: m + p
/// + 5 events, with m arguments in p lines. Arguments that the record has no word for are left out.
/// On a device that is off the answer is `Off(Unsealed)`, and nothing has changed.
pub fn seal<P: PmemWork>(dev: &mut P, tx: u64, args: &[i64]) -> SealAnswer
    requires lines { 6 ≤ (P.device dev.old).lines }
    ensures played { (P.device dev.old).on ≡ true
        → Seals result (P.device dev.old) (cast_signed w64 tx) (take ARGUMENTS args.now)
        (number_after (view (P.device dev.old).cache DONE)) (P.device dev.new) }
    ensures off { (P.device dev.old).on ≡ false → result ≡ SealAnswer.Off at_phase.Unsealed }
    ensures same { (P.device dev.old).on ≡ false → P.device dev.new ≡ P.device dev.old }
    ensures lines { (P.device dev.new).lines ≡ (P.device dev.old).lines }
{
    let Some(done) = dev.load(DONE) else {
        return SealAnswer::Off(Phase::Unsealed);
    };
    let function = tx.cast_signed();
    let number = following(done);
    play_seal(dev, function, recorded(args), number)
}
