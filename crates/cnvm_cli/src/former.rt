//! Reads the pool of a file that may be one of the program's former text, and moves it.

ghost use Rattle.std.specs.Prelude.{◌≡◌, ◌<◌, ◌≤◌, ◌++◌, ◌⊎◌, OnOk, IfOk, IfErr, IsErrOf};
ghost use Rattle.std.specs.Prelude.{length, take, string_bytes};
ghost use Rattle.std.specs.Io.KnownBytes.{Consumes, IsAtEnd};
ghost use Rattle.nvm_base.specs.Rose.{Rose};
ghost use Rattle.file_pmem.specs.File.{HoldsWords};
ghost use Rattle.file_pmem.specs.Mirror.{file_device};
ghost use Rattle.file_pmem.specs.declared.file.FileAnswer.TheVariants.{Done};
ghost use Rattle.pool_layout.specs.Bytes.{bytes_of};
ghost use Rattle.pool_layout.specs.Image.{image_words, is_next};
ghost use Rattle.pool_layout.specs.Sizes.{pool_lines};
ghost use Rattle.cnvm_cli.specs.Former as former_is;
ghost use Rattle.cnvm_cli.specs.inside.FormerEnds.{IsUnsaid, RestReadAs, OwnReadAs};
ghost use Rattle.cnvm_cli.specs.inside.FormerEnds.{PoolReadAs, FormerReadAs, OtherReadAs};
ghost use Rattle.cnvm_cli.specs.inside.FormerEnds.{StartReadAs, IsPoolHeld, IsUnheld, TakesOver};

use crate::pool::{are_same, other_words};
use crate::reading::{read_program, words_of};
use crate::refused::Refused;
use cnvm_compile::{Asked, Compiled};
use cnvm_session::{Program, Session, first_other};
use file_pmem::{FileAnswer, FilePmem, LineFile, Unread, words_in};
use nvm_base::{Bytes, Sink, Source, Text, UpToFault, Words, read_up_to};
use pmem::Lines;
use pool_layout::{
    DONE, ImageFault, MARK, RawImage, SEAL, digest_in, image_bytes, pool_lines, read_onto,
};
use session_run::{Status, move_held, tell};
use std::alloc::{AllocError, Global};

/// The bytes of an image up to the end of its digest.
const HEAD: usize = 96;

/// The bytes before its digest.
const BEFORE_DIGEST: usize = 64;

/// The line of the digest.
const DIGEST_LINE: u64 = 1;

/// A pool of the program's former text.
#[derive(Drop)]
pub(crate) struct FormerPool {
    /// The program of the former text.
    pub(crate) compiled: Compiled,
    /// The words of the pool, with the digest of that program.
    pub(crate) words: Words,
    /// Whether a move to the new program was cut: some words of the digest are that program's.
    pub(crate) cut: bool,
    /// The name of the first struct that differs in the new program.
    pub(crate) other: Option<Text>,
}

/// Whose pool an image is.
#[derive(Drop)]
pub(crate) enum Owned {
    /// The program's own; these are its words.
    Own(Words),
    Former(FormerPool),
}

/// Reads an image of a pool of the program or of its former text. That text isn't read if the
/// image has the program's digest. An image of neither is refused as one of the program is.
pub(crate) fn read_owned<S: Source, I: Source>(
    alloc: Global,
    asked: Asked,
    program: &Program,
    former: &mut S,
    image: &mut I,
) -> Result<Owned, Refused>
    ensures told { StartReadAs asked program.now (S.left former.old) (I.left image.old) result }
    ensures read { IsErrOf result Refused.ReadFault
        → Rose (S.faults former.old) (S.faults former.new)
        ⊎ Rose (I.faults image.old) (I.faults image.new) }
    ensures usage { IsErrOf result Refused.Usage → ⊥ }
{
    let head = match read_head(alloc, image) {
        Ok(head) => head,
        Err(why) => return Err(why),
    };
    if head.as_slice().len() < HEAD {
        return own_words(alloc, image, head, program);
    }
    let found = digest_in(head.as_slice());
    if are_same(&found, &program.digest) {
        return own_words(alloc, image, head, program);
    }
    read_other(alloc, asked, program, former, &found, head, image)
}

/// The first bytes of an image, up to the end of its digest.
fn read_head<I: Source>(alloc: Global, image: &mut I) -> Result<Bytes, Refused>
    ensures within { IfOk result (λ head. length head ≤ 96) }
    ensures taken { IfOk result (λ head. Consumes (I.left image.old) (I.left image.new) head) }
    ensures end { IfOk result (λ head. length head < 96 → IsAtEnd (I.left image.new)) }
    ensures refused { IfErr result IsUnsaid }
    ensures read { IsErrOf result Refused.ReadFault
        → Rose (I.faults image.old) (I.faults image.new) }
    ensures usage { IsErrOf result Refused.Usage → ⊥ }
    ensures count { I.faults image.old ≤ I.faults image.new }
{
    match read_up_to(alloc, image, HEAD) {
        Ok(bytes) => Ok(bytes),
        Err(UpToFault::ReadFault) => Err(Refused::ReadFault),
        Err(UpToFault::NoMemory) => Err(Refused::NoMemory),
    }
}

/// Reads the former text, and then the rest of an image whose first bytes and digest are these.
fn read_other<S: Source, I: Source>(
    alloc: Global,
    asked: Asked,
    program: &Program,
    former: &mut S,
    found: &[i64; 4],
    head: Bytes,
    image: &mut I,
) -> Result<Owned, Refused>
    requires { length head ≡ 96 }
    ensures told { OtherReadAs asked program.now (S.left former.old) found.now head
        (I.left image.old) result }
    ensures read { IsErrOf result Refused.ReadFault
        → Rose (S.faults former.old) (S.faults former.new)
        ⊎ Rose (I.faults image.old) (I.faults image.new) }
    ensures usage { IsErrOf result Refused.Usage → ⊥ }
{
    let old = match read_program(alloc, former, asked) {
        Ok(old) => old,
        Err(why) => return Err(why),
    };
    if is_between(found, &old.program.digest, &program.digest) {
        former_words(alloc, program, old, found, head, image)
    } else {
        own_words(alloc, image, head, program)
    }
}

/// The words of the program's own image that begins with these bytes.
fn own_words<I: Source>(
    alloc: Global,
    image: &mut I,
    head: Bytes,
    program: &Program,
) -> Result<Owned, Refused>
    requires { length head ≤ 96 }
    ensures told { OwnReadAs program.now head (I.left image.old) result }
    ensures read { IsErrOf result Refused.ReadFault
        → Rose (I.faults image.old) (I.faults image.new) }
    ensures usage { IsErrOf result Refused.Usage → ⊥ }
{
    match read_rest(alloc, image, head, program) {
        Ok(words) => Ok(Owned::Own(words)),
        Err(why) => Err(why),
    }
}

/// The words of a former program's image that begins with these bytes.
fn former_words<I: Source>(
    alloc: Global,
    new: &Program,
    old: Compiled,
    found: &[i64; 4],
    head: Bytes,
    image: &mut I,
) -> Result<Owned, Refused>
    requires { length head ≡ 96 }
    ensures told { FormerReadAs new.now old found.now head (I.left image.old) result }
    ensures read { IsErrOf result Refused.ReadFault
        → Rose (I.faults image.old) (I.faults image.new) }
    ensures usage { IsErrOf result Refused.Usage → ⊥ }
{
    let Ok(head) = with_digest(alloc, head.as_slice(), &old.program.digest) else {
        return Err(Refused::NoMemory);
    };
    match read_rest(alloc, image, head, &old.program) {
        Ok(words) => former_pool(alloc, new, old, found, words),
        Err(why) => Err(why),
    }
}

/// The pool of these words, which a former program's image gives.
fn former_pool(
    alloc: Global,
    new: &Program,
    old: Compiled,
    found: &[i64; 4],
    words: Words,
) -> Result<Owned, Refused>
    ensures told { PoolReadAs new.now old found.now words result }
    ensures read { IsErrOf result Refused.ReadFault → ⊥ }
    ensures usage { IsErrOf result Refused.Usage → ⊥ }
{
    let cut = !are_same(found, &old.program.digest);
    if cut && owes(words.as_slice()) {
        return Err(Refused::Image(ImageFault::Digest(*found, new.digest)));
    }
    match first_other(alloc, &old.program.typed, &new.typed) {
        Ok(other) => Ok(Owned::Former(FormerPool {
            compiled: old,
            words,
            cut,
            other,
        })),
        Err(_) => Err(Refused::NoMemory),
    }
}

/// The words of an image of the program's pool that begins with these bytes. The rest is read, up
/// to one byte past its length.
fn read_rest<I: Source>(
    alloc: Global,
    image: &mut I,
    head: Bytes,
    program: &Program,
) -> Result<Words, Refused>
    requires { length head ≤ 96 }
    ensures told { RestReadAs program.now head (I.left image.old) result }
    ensures read { IsErrOf result Refused.ReadFault
        → Rose (I.faults image.old) (I.faults image.new) }
    ensures usage { IsErrOf result Refused.Usage → ⊥ }
{
    let most = 64 * pool_lines(program.image.sizes()) as usize + 1 - HEAD;
    let mut bytes = RawImage::new(alloc);
    if let Err(_) = bytes.extend(head.as_slice()) {
        return Err(Refused::NoMemory);
    }
    match read_onto(alloc, image, &mut bytes, most) {
        Ok(()) => words_of(alloc, bytes, program),
        Err(UpToFault::ReadFault) => Err(Refused::ReadFault),
        Err(UpToFault::NoMemory) => Err(Refused::NoMemory),
    }
}

/// Whether each word of a digest is one program's or the other's.
fn is_between(found: &[i64], former: &[i64], new: &[i64]) -> bool
    ensures { result ≡ former_is.is_between found.now former.now new.now }
{
    if !is_either_at(found, former, new, 0) {
        return false;
    }
    if !is_either_at(found, former, new, 1) {
        return false;
    }
    if !is_either_at(found, former, new, 2) {
        return false;
    }
    is_either_at(found, former, new, 3)
}

/// Whether the word of a digest at this place is one program's or the other's.
#[tactic(auto, unfolding(crate::specs::Former::is_either_at))]
fn is_either_at(found: &[i64], former: &[i64], new: &[i64], place: u64) -> bool
    ensures { result ≡ former_is.is_either_at found.now former.now new.now place }
{
    let word = word_at(found, place);
    word == word_at(former, place) || word == word_at(new, place)
}

/// The first bytes of an image, with this digest in place of theirs.
fn with_digest(alloc: Global, head: &[u8], digest: &[i64; 4]) -> Result<Bytes, AllocError>
    requires { length head.now ≡ 96 }
    ensures bytes { IfOk result (λ bytes. bytes ≡ take 64 head.now ++ bytes_of digest.now) }
    ensures length { IfOk result (λ bytes. length bytes ≡ 96) }
{
    let (before, _) = head.split_at(BEFORE_DIGEST);
    let digest = image_bytes(alloc, digest.as_slice())?;
    let mut bytes = Bytes::new(alloc);
    bytes.extend(before)?;
    bytes.extend(digest.as_slice())?;
    Ok(bytes)
}

/// Whether the pool of these words owes a transaction.
fn owes(words: &[i64]) -> bool
    ensures { result ≡ former_is.is_owing (image_words words.now) }
{
    word_at(words, MARK) == 0 && is_next(word_at(words, SEAL), word_at(words, DONE))
}

/// Whether a word is one more than another.
fn is_next(word: i64, before: i64) -> bool
    ensures { result ≡ is_next word before }
{
    word > i64::MIN && word - 1 == before
}

/// A word of a pool; 0 past its end.
fn word_at(words: &[i64], place: u64) -> i64
    ensures { result ≡ image_words words.now place }
{
    match words.get(place as usize) {
        Some(word) => *word,
        None => 0,
    }
}

/// Writes the line of the digest to the file of a pool whose move was cut, as the former program
/// has it. The file isn't synced.
fn mend<F: LineFile>(file: &mut F, pool: &FormerPool) -> FileAnswer
    requires { 16 ≤ length pool.now.words }
    ensures { result ≡ Done
        → former_is.MendsLine pool.now.cut pool.now.words (F.content file.old)
        (F.content file.new) }
{
    if !pool.cut {
        return FileAnswer::Done;
    }
    let mut line = [0; 8];
    line.copy_from_slice(&pool.words.as_slice()[8..16]);
    file.write_line(DIGEST_LINE, &line)
}

/// Why the file of a former pool isn't opened.
#[derive(Clone, Copy)]
pub(crate) enum Unheld {
    /// The file, or memory, failed.
    Status(Status),
    /// It holds other words than the image.
    Refused(Refused),
}

/// The file of a former pool, which then holds the pool's words.
pub(crate) fn former_file<F: LineFile + Drop>(
    alloc: Global,
    pool: &FormerPool,
    mut file: F,
) -> Result<F, Unheld>
    requires { 16 ≤ length pool.now.words }
    ensures holds { IfOk result (λ f. HoldsWords (F.content f)
        (pool_lines pool.now.compiled.program.image.parts.sizes) pool.now.words) }
    ensures found { OnOk result (IsPoolHeld pool.now (F.content file)) }
    ensures unheld { IfErr result (λ why. IsUnheld pool.now (F.content file) why) }
{
    if let FileAnswer::Failed = mend(&mut file, pool) {
        return Err(Unheld::Status(Status::DeviceFault));
    }
    let lines = pool_lines(pool.compiled.program.image.sizes());
    let held = match words_in(alloc, &mut file, lines) {
        Ok(held) => held,
        Err(Unread::Failed) => return Err(Unheld::Status(Status::ReadFault)),
        Err(Unread::NoMemory) => return Err(Unheld::Status(Status::NoMemory)),
    };
    let held = held.as_slice();
    if are_same(held, pool.words.as_slice()) {
        return Ok(file);
    }
    Err(Unheld::Refused(other_words(held)))
}

/// Moves an opened pool of the former program to this one. It isn't moved where its opening left
/// something owed, or where a struct differs, which is told.
pub(crate) fn take_over<K: Sink, N: Lines + Drop, F: LineFile + Drop>(
    alloc: Global,
    program: &Program,
    other: &Option<Text>,
    session: &Session,
    out: &mut K,
    dev: &mut FilePmem<N, F>,
) -> Result<(), Status>
    requires { 6 ≤ (file_device N.memory dev.old).lines }
    ensures over { TakesOver program.now other.now session.now result
        (K.written out.old) (K.written out.new) (file_device N.memory dev.old)
        (file_device N.memory dev.new) dev.new.link.state }
    ensures lines { (file_device N.memory dev.new).lines ≡ (file_device N.memory dev.old).lines }
    ensures usage { IsErrOf result Status.Usage → ⊥ }
    ensures undone { IsErrOf result Status.Done → ⊥ }
    ensures write { IsErrOf result Status.WriteFault → Rose (K.faults out.old) (K.faults out.new) }
    ensures quiet { OnOk result (K.faults out.new ≡ K.faults out.old) }
{
    if !session.is_recovered() {
        return Err(Status::NoMemory);
    }
    if let Some(name) = other {
        return Err(tell(out, shape_line(alloc, name.as_str()), Status::Image));
    }
    move_held(program, dev)
}

/// The line that names a struct that differs.
fn shape_line(alloc: Global, name: &str) -> Result<String, AllocError>
    ensures { IfOk result (λ s. string_bytes s ≡ former_is.shape_line name.now) }
{
    format!(in alloc; "image shape {name}\n")
}
