//! Takes the bytes of an image from a source, piece by piece.

ghost use Rattle.std.specs.Prelude.{◌≤◌, OnOk, IsErrOf};
ghost use Rattle.nvm_base.specs.Rose.{Rose};
ghost use Rattle.pool_layout.specs.Taken.{ReadOnto};

use crate::raw::RawImage;
use nvm_base::{Source, UpToFault, read_up_to};
use std::alloc::Global;

/// The most bytes that are held beside those that the image has.
const PIECE: usize = 65_536;

/// Reads at most so many more bytes of an image.
pub fn read_onto<S: Source>(
    alloc: Global,
    source: &mut S,
    image: &mut RawImage,
    most: usize,
) -> Result<(), UpToFault>
    ensures read { OnOk result (ReadOnto (S.left source.old) most image.old image.new) }
    ensures fault { IsErrOf result UpToFault.ReadFault
        → Rose (S.faults source.old) (S.faults source.new) }
    ensures count { S.faults source.old ≤ S.faults source.new }
{
    image.reserve(most);
    let mut missing = most;
    'reading: while missing > 0 {
        let asked = missing.min(PIECE);
        let piece = read_up_to(alloc, source, asked)?;
        let bytes = piece.as_slice();
        image.extend(bytes)?;
        let count = bytes.len();
        if count < asked {
            return Ok(());
        }
        missing -= count;
    }
    Ok(())
}
