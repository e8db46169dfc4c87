//! The number after another.

ghost use Rattle.std.specs.Prelude.{◌≡◌};
ghost use Rattle.args_log.specs.Next.{number_after};

use nvm_base::add;

/// One more, as a word. The numbers of a pool are far from the greatest word, after which this
/// wraps to the least.
#[tactic(auto, unfolding(crate::specs::Next::number_after))]
pub fn following(number: i64) -> i64
    ensures { result ≡ number_after number }
{
    add(number, 1)
}
