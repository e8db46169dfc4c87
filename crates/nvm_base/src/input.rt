//! Reading a source to its end, or up to a number of bytes.

ghost use Rattle.std.specs.Prelude.{◌≡◌, ℕ, ◌+◌, ◌^◌, ◌<◌, ◌≤◌, ◌++◌, List, length, take, IfOk};
ghost use Rattle.std.specs.Prelude.{OnOk, OnErr, IfSome, IsErrOf};
ghost use Rattle.std.specs.Io.KnownBytes.{Consumes, IsAtEnd, Keeps};
ghost use Rattle.nvm_base.specs.Parts.{Takes};
ghost use Rattle.nvm_base.specs.Rose.{Rose};
ghost use Rattle.nvm_base.specs.declared.input.UpToFault.TheVariants.{NoMemory};

use crate::list::Bytes;
use crate::source::{ReadAnswer, Source};
use std::alloc::{AllocError, Global};

/// Why `read_up_to` gives no bytes.
#[derive(Clone, Copy)]
pub enum UpToFault {
    /// A read failed, and the source's count of faults rose.
    ReadFault,
    NoMemory,
}

/// Why `read_all` gives no bytes.
#[derive(Clone, Copy, Debug, PartialEq, Eq)]
pub enum ReadAllFault {
    /// A read failed, and the source's count of faults rose.
    ReadFault,
    /// The source had more bytes than the limit; one more than the limit was taken.
    Long,
    NoMemory,
}

impl From<AllocError> for UpToFault {
    ghost from_gives = { λ _ fault. fault ≡ NoMemory };

    fn from(_: AllocError) -> Self {
        UpToFault::NoMemory
    }
}

/// The most bytes that one read asks for.
const PIECE: usize = 16_384;

/// Reads one piece and appends its bytes to those taken before. Returns the number of bytes read, 0
/// at the end of input.
fn read_piece<S: Source>(
    source: &mut S,
    piece: &mut [u8],
    taken: &mut Bytes,
) -> Result<usize, UpToFault>
    requires { 0 < length piece.old }
    ensures taken { IfOk result (λ n. taken.new ≡ taken.old ++ take n piece.new) }
    ensures bytes { IfOk result (λ n. Consumes (S.left source.old) (S.left source.new)
        (take n piece.new)) }
    ensures within { IfOk result (λ n. n ≤ length piece.new) }
    ensures end { result ≡ Ok 0 → IsAtEnd (S.left source.new) }
    ensures fault { IsErrOf result UpToFault.ReadFault
        → Rose (S.faults source.old) (S.faults source.new) }
    ensures none { IsErrOf result UpToFault.ReadFault
        → Keeps (S.left source.old) (S.left source.new) }
    ensures gave { OnErr result (Takes (S.left source.old) (S.left source.new)
        (λ n. n ≤ length piece.new)) }
    ensures count { S.faults source.old ≤ S.faults source.new }
{
    match source.read(piece) {
        ReadAnswer::Failed => Err(UpToFault::ReadFault),
        ReadAnswer::Count(count) => {
            taken.extend(&piece[..count])?;
            Ok(count)
        }
    }
}

/// Reads to the end of the source, or its first `most` bytes. After a fault, the bytes read so far
/// have been taken from the source.
pub fn read_up_to<S: Source>(alloc: Global, source: &mut S, most: usize) -> Result<Bytes, UpToFault>
    ensures first { IfOk result (λ bytes.
        IfSome (S.left source.old) (λ all. bytes ≡ take most all)) }
    ensures taken { IfOk result (λ bytes. Consumes (S.left source.old) (S.left source.new) bytes) }
    ensures within { IfOk result (λ bytes. length bytes ≤ most) }
    ensures end { IfOk result (λ bytes. length bytes < most → IsAtEnd (S.left source.new)) }
    ensures fault { IsErrOf result UpToFault.ReadFault
        → Rose (S.faults source.old) (S.faults source.new) }
    ensures short { IsErrOf result UpToFault.ReadFault
        → Takes (S.left source.old) (S.left source.new) (λ n. n < most) }
    ensures gave { OnErr result (Takes (S.left source.old) (S.left source.new) (λ n. n ≤ most)) }
    ensures count { S.faults source.old ≤ S.faults source.new }
{
    let mut taken = Bytes::new(alloc);
    let mut piece = [0; PIECE];
    while taken.as_slice().len() < most {
        let room = (most - taken.as_slice().len()).min(PIECE);
        if read_piece(source, &mut piece[..room], &mut taken)? == 0 {
            return Ok(taken);
        }
    }
    Ok(taken)
}

/// Reads the whole source, which may have at most the limit of bytes. After a fault, the bytes read
/// so far have been taken from the source.
pub fn read_all<S: Source>(
    alloc: Global,
    source: &mut S,
    limit: usize,
) -> Result<Bytes, ReadAllFault>
    requires { limit ≤ 2 ^ 31 }
    ensures all { IfOk result (λ bytes. IfSome (S.left source.old) (λ all. bytes ≡ all)) }
    ensures taken { IfOk result (λ bytes. Consumes (S.left source.old) (S.left source.new) bytes) }
    ensures within { IfOk result (λ bytes. length bytes ≤ limit) }
    ensures end { OnOk result (IsAtEnd (S.left source.new)) }
    ensures long { IsErrOf result ReadAllFault.Long
        → Takes (S.left source.old) (S.left source.new) (λ n. n ≡ limit + 1) }
    ensures fault { IsErrOf result ReadAllFault.ReadFault
        → Rose (S.faults source.old) (S.faults source.new) }
    ensures gave { IsErrOf result ReadAllFault.ReadFault
        → Takes (S.left source.old) (S.left source.new) (λ n. n ≤ limit) }
    ensures count { S.faults source.old ≤ S.faults source.new }
{
    match read_up_to(alloc, source, limit + 1) {
        Err(UpToFault::ReadFault) => Err(ReadAllFault::ReadFault),
        Err(UpToFault::NoMemory) => Err(ReadAllFault::NoMemory),
        Ok(bytes) => {
            if bytes.as_slice().len() > limit {
                Err(ReadAllFault::Long)
            } else {
                Ok(bytes)
            }
        }
    }
}
