//! The check of an index.

ghost use Rattle.std.specs.Prelude.{◌≡◌};
ghost use Rattle.pool_map.specs.Checks as checks;

use crate::trap::TrapKind;

/// The check index: the element that an index names, of this number of them.
pub fn element_in(length: u64, index: i64) -> Result<u64, TrapKind>
    ensures { result ≡ checks.element_in length index }
{
    match u64::try_from(index) {
        Err(_) => Err(TrapKind::Index),
        Ok(at) => {
            if at < length {
                Ok(at)
            } else {
                Err(TrapKind::Index)
            }
        }
    }
}
