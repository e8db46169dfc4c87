//! The laws of walks, for the crates above: facts derived through summaries are exactly those of
//! walks.

ghost use Rattle.std.specs.Prelude.{◌↔◌, ℕ, List};
ghost use Rattle.ir.specs.declared.function.IrFunction.{IrFunction};
ghost use Rattle.ir.specs.declared.fact.Fact.{Fact};
ghost use Rattle.ir.specs.declared.fact.Fact.TheVariants.{Here};
ghost use Rattle.ir.specs.Clobber.{SomeWalk};
ghost use Rattle.ir.specs.Derived.{Passes, Flows};
ghost use Rattle.ir.specs.Matched.{MatchedWalk};
ghost use mathlib.Core.Logic.{◌⊎◌};

/// A fact is derived at a place exactly if some walk reaches the place with it.
pub fn flows_are_walks()
    ensures { (functions : List IrFunction) (f p : ℕ) (b : Fact)
        → SomeWalk functions f p b ↔ Flows functions f p b }
{}

/// A fact passes through a function exactly if some matched walk that begins with the first fact
/// alone ends with the second.
pub fn summaries_are_walks()
    ensures { (functions : List IrFunction) (f p : ℕ) (e b : Fact)
        → MatchedWalk functions f e p b ↔ (Passes functions f 0 e p b
        ⊎ Passes functions f 0 Here p b) }
{}
