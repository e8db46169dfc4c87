//! Code that only looks. The body of a function that neither stores nor calls one that does is
//! lowered to code without a store, a new or a free; a log is added before a store alone; and the
//! machine's code of such code has no store, no log and no search for a free slot. So each run of a
//! transaction that is marked `const` has the effects of a look alone. The crate rests on `lower`,
//! `instrument`, `codegen` and `pm_machine`, and has no code. Its one contract for the crates
//! above: the laws of `specs/`, each a clause of a function that does nothing.
#![tactic(auto)]

ghost use Rattle.look_law.specs.Law.{RunLaw, EmitsLaw, InsertsLaw, LowersLaw, LookingLaw};

/// The code of a function that doesn't store only looks: as it is lowered, with its logs, and as
/// the machine has it. Each run of such code has the effects of a look alone, from every heap. The
/// function does nothing.
pub fn looking_law()
    ensures run { RunLaw }
    ensures emits { EmitsLaw }
    ensures inserts { InsertsLaw }
    ensures lowers { LowersLaw }
    ensures looking { LookingLaw }
{}
