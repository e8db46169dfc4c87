//! What is told to a person after a run: made from its status and from what it read and wrote. No
//! status and no byte of standard output depends on it.

use crate::answer_sink::AnswerSink;
use crate::script_source::ScriptSource;
use cnvm_cli::{World, push_digest};
use cnvm_notes::{
    BrokenCheck, RunTexts, Stormed, WorkersTexts, answers_note, script_note, storm_note,
    workers_answers_note, workers_note,
};
use cnvm_script::next_line;
use cnvm_session::{StormCall, Trapped, Traps};
use cnvm_words::{Plan, plan_of};
use nvm_base::{KeptSource, Reason, SavedFile, Sink, StdSink, StdSource, write_all};
use plain_notes::{
    Digests, ImageRefusal, Told, message_of, of_image, of_words, unread, unsaved, unwritten,
};
use pool_layout::{FUNCTION, digest};
use program_notes::{name_of, program_note};
use session_run::Status;
use std::alloc::{AllocError, Global};
use std::rt::Files;

/// How many of the first bytes of an image are kept. Messages name its words up to the function.
pub(crate) const IMAGE_KEPT: usize = 256;

/// What a run on files reads and writes, with a copy of what went through.
pub(crate) type FileWorld<'a, R, P> = World<
    KeptSource<StdSource<'a, R>>,
    ScriptSource<'a, R>,
    KeptSource<StdSource<'a, R>>,
    AnswerSink<StdSink<'a, R>>,
    SavedFile<'a, R>,
    P,
>;

/// The paths of a run.
#[derive(Clone, Copy)]
pub(crate) struct Named<'a> {
    pub program: &'a str,
    pub script: &'a str,
    pub image_in: &'a str,
    pub image_out: &'a str,
    pub former: &'a str,
}

/// Tells how a run ended; `pool` is why a pool's file couldn't be opened or made. Where there is no
/// memory for the message a short one is written; where the sink fails none is.
pub(crate) fn tell_end<R: Files + Input + Print + AllocGlobal, P: Drop, N: Sink>(
    alloc: Global,
    words: &[String],
    named: Named<'_>,
    status: Status,
    world: &FileWorld<'_, R, P>,
    pool: Option<Reason>,
    notes: &mut N,
) {
    let message = match message(alloc, words, named, status, world, pool) {
        Ok(Some(message)) => message,
        Ok(None) => return,
        Err(_) => return put_bytes(notes, b"cnvm: out of memory\n"),
    };
    put_bytes(notes, message.as_str().as_bytes());
}

/// Writes the bytes. Where that fails, nothing else changes.
pub(crate) fn put_bytes<N: Sink>(notes: &mut N, bytes: &[u8]) {
    match write_all(notes, bytes) {
        Ok(()) => (),
        Err(_) => (),
    }
}

fn message<R: Files + Input + Print + AllocGlobal, P: Drop>(
    alloc: Global,
    words: &[String],
    named: Named<'_>,
    status: Status,
    world: &FileWorld<'_, R, P>,
    pool: Option<Reason>,
) -> Result<Option<String>, AllocError> {
    match status {
        Status::Done | Status::Unmet => of_done(alloc, words, named, world),
        Status::NoMemory => plain(alloc, "out of memory"),
        Status::Usage => Ok(Some(of_words(alloc, words)?)),
        Status::Program => of_programs(alloc, named, world),
        Status::Script => of_script(alloc, words, named.script, world.script.kept()),
        Status::ReadFault => Ok(Some(of_read(alloc, named, world, pool)?)),
        Status::WriteFault => of_write(alloc, named, world),
        Status::DeviceFault => of_device(alloc, words, named, pool),
        Status::PoolBusy => busy(alloc, named.image_in),
        Status::Image => of_refused_image(alloc, words, named, world),
    }
}

/// The message of a device that failed, or of a pool's file that couldn't be made or refused
/// something.
fn of_device(
    alloc: Global,
    words: &[String],
    named: Named<'_>,
    pool: Option<Reason>,
) -> Result<Option<String>, AllocError> {
    if pool.is_some() {
        let told = unsaved(alloc, named.image_in, pool)?;
        return Ok(Some(message_of(alloc, &told)?));
    }
    match plan_of(alloc, words) {
        Ok(Plan::RunPool { .. } | Plan::ServePool { .. } | Plan::WorkersPool { .. }) => {
            let what = format!(in alloc;
                "{}: the file refused a write or a sync; the next opening finds what is durable",
                named.image_in
            )?;
            plain(alloc, what.as_str())
        }
        _ => plain(alloc, "the device failed while the pool was made"),
    }
}

/// The message of a pool's file that another process holds.
fn busy(alloc: Global, path: &str) -> Result<Option<String>, AllocError> {
    let what = format!(in alloc; "{path}: another process holds this pool, or has just made it")?;
    plain(alloc, what.as_str())
}

fn plain(alloc: Global, what: &str) -> Result<Option<String>, AllocError> {
    let told = Told::new(alloc, what)?;
    Ok(Some(message_of(alloc, &told)?))
}

/// The message of a refused program, or of its former text.
fn of_programs<R: Files + Input + Print + AllocGlobal, P: Drop>(
    alloc: Global,
    named: Named<'_>,
    world: &FileWorld<'_, R, P>,
) -> Result<Option<String>, AllocError> {
    let note = match of_program(alloc, named.program, world.program.kept())? {
        Some(note) => Some(note),
        None => of_program(alloc, named.former, world.former.kept())?,
    };
    note_or(alloc, note, "the program was refused")
}

/// The message of a text, if it is refused.
fn of_program(
    alloc: Global,
    path: &str,
    text: Option<&[u8]>,
) -> Result<Option<String>, AllocError> {
    match text {
        Some(text) => program_note(alloc, path, text),
        None => Ok(None),
    }
}

/// The message of a refused script, by the grammar of the command.
fn of_script(
    alloc: Global,
    words: &[String],
    path: &str,
    text: Option<&[u8]>,
) -> Result<Option<String>, AllocError> {
    if let Ok(Plan::Serve { .. } | Plan::ServePool { .. }) = plan_of(alloc, words) {
        return plain(alloc, "standard input: a line has more than 1048576 bytes");
    }
    let note = match text {
        Some(text) if has_workers(alloc, words) => workers_note(alloc, path, text)?,
        Some(text) => script_note(alloc, path, text)?,
        None => None,
    };
    note_or(alloc, note, "the script was refused")
}

/// Whether the words ask for workers.
fn has_workers(alloc: Global, words: &[String]) -> bool {
    match plan_of(alloc, words) {
        Ok(Plan::Workers { .. } | Plan::WorkersPool { .. }) => true,
        _ => false,
    }
}

/// The message, or a plain one where there is none.
fn note_or(alloc: Global, note: Option<String>, what: &str) -> Result<Option<String>, AllocError> {
    match note {
        Some(note) => Ok(Some(note)),
        None => plain(alloc, what),
    }
}

/// The texts that went through in a run; an empty one where none did.
#[derive(Clone, Copy)]
struct Texts<'a> {
    program: &'a [u8],
    script: &'a [u8],
    image: &'a [u8],
    answers: &'a [u8],
}

/// The message of answers that are traps or refusals.
fn of_done<'a, R: Files + Input + Print + AllocGlobal, P: Drop>(
    alloc: Global,
    words: &[String],
    named: Named<'a>,
    world: &'a FileWorld<'_, R, P>,
) -> Result<Option<String>, AllocError> {
    let (Some(program), Some(answers)) = (world.program.kept(), world.out.kept()) else {
        return Ok(None);
    };
    let texts = Texts {
        program,
        script: world.script.kept().unwrap_or(b""),
        image: world.image_in.kept().unwrap_or(b""),
        answers,
    };
    match plan_of(alloc, words) {
        Ok(plan) => of_plan(alloc, &plan, named, texts, &world.traps),
        Err(_) => Ok(None),
    }
}

/// The message of the answers to this plan.
fn of_plan<'a>(
    alloc: Global,
    plan: &Plan,
    named: Named<'a>,
    texts: Texts<'a>,
    traps: &Traps,
) -> Result<Option<String>, AllocError> {
    match plan {
        Plan::Run { start_image, .. } => of_run(alloc, named, texts, traps, start_image.is_some()),
        Plan::RunPool { .. } => of_run(alloc, named, texts, traps, true),
        Plan::Serve { .. } | Plan::ServePool { .. } => of_lines(alloc, named, texts, traps),
        Plan::Workers { .. } => of_workers(alloc, named, texts, traps, false),
        Plan::WorkersPool { .. } => of_workers(alloc, named, texts, traps, true),
        Plan::Storm { .. } => of_storm(alloc, named, texts, traps),
        Plan::List { .. } | Plan::Why { .. } | Plan::Emit { .. } | Plan::Code { .. } => Ok(None),
    }
}

/// The message of a storm in which a check was broken or a transaction trapped.
fn of_storm<'a>(
    alloc: Global,
    named: Named<'a>,
    texts: Texts<'a>,
    traps: &Traps,
) -> Result<Option<String>, AllocError> {
    let stormed = Stormed {
        round: traps.round,
        call: text_or_none(&traps.call),
        line: line_of(traps.ended),
    };
    let broken = match &traps.broken {
        Some(StormCall { round, call }) => Some(BrokenCheck {
            round: *round,
            call: text_or_none(call),
        }),
        None => None,
    };
    storm_note(alloc, named.program, texts.answers, stormed, broken)
}

/// The text, or an empty one.
fn text_or_none(text: &Option<String>) -> &str {
    match text {
        Some(text) => text.as_str(),
        None => "",
    }
}

/// The message of the answers to workers that are traps or refusals.
fn of_workers<'a>(
    alloc: Global,
    named: Named<'a>,
    texts: Texts<'a>,
    traps: &Traps,
    opened: bool,
) -> Result<Option<String>, AllocError> {
    let run = WorkersTexts {
        program_path: named.program,
        script_path: named.script,
        script: texts.script,
        answers: texts.answers,
        opened,
        ended: line_of(traps.ended),
        undone: line_of(traps.undone),
        pick: traps.pick,
    };
    workers_answers_note(alloc, run)
}

/// The line of a trap.
fn line_of(trapped: Option<Trapped>) -> Option<u64> {
    trapped?.line
}

/// The message of the answers to lines that came, as of a run's: without the empty lines and the
/// answers of bad lines.
fn of_lines<'a>(
    alloc: Global,
    named: Named<'a>,
    texts: Texts<'a>,
    traps: &Traps,
) -> Result<Option<String>, AllocError> {
    let mut answers = Vec::new(alloc);
    let mut rest = texts.answers;
    'lines: while !rest.is_empty() {
        let (line, others) = next_line(rest);
        rest = others;
        if !line.is_empty() && line != b"refused line".as_slice() {
            answers.extend_from_slice(line)?;
            answers.push(b'\n')?;
        }
    }
    let told = Texts {
        answers: answers.as_slice(),
        ..texts
    };
    of_run(alloc, named, told, traps, true)
}

/// The message of a run's answers that are traps or refusals.
fn of_run<'a>(
    alloc: Global,
    named: Named<'a>,
    texts: Texts<'a>,
    traps: &Traps,
    opened: bool,
) -> Result<Option<String>, AllocError> {
    let owed = name_of(
        alloc,
        texts.program,
        word_at(texts.image, FUNCTION as usize),
    )?;
    let run = RunTexts {
        program_path: named.program,
        script_path: named.script,
        script: texts.script,
        answers: texts.answers,
        opened,
        image_path: named.image_in,
        owed: owed.as_str(),
        saved: named.image_out,
        ended: line_of(traps.ended),
        undone: line_of(traps.undone),
        pick: traps.pick,
    };
    answers_note(alloc, run)
}

fn of_read<R: Files + Input + Print + AllocGlobal, P: Drop>(
    alloc: Global,
    named: Named<'_>,
    world: &FileWorld<'_, R, P>,
    pool: Option<Reason>,
) -> Result<String, AllocError> {
    let program = world.program.source().reason();
    let script = world.script.reason();
    let former = world.former.source().reason();
    let told = if former.is_some() {
        unread(alloc, named.former, former)?
    } else if program.is_some() {
        unread(alloc, named.program, program)?
    } else if script.is_some() {
        unread(alloc, named.script, script)?
    } else if pool.is_some() {
        unread(alloc, named.image_in, pool)?
    } else {
        unread(alloc, named.image_in, world.image_in.source().reason())?
    };
    message_of(alloc, &told)
}

/// The message of standard output or of an image that couldn't be written. That the reader is gone
/// isn't told: `| head` takes what it wants.
fn of_write<R: Files + Input + Print + AllocGlobal, P: Drop>(
    alloc: Global,
    named: Named<'_>,
    world: &FileWorld<'_, R, P>,
) -> Result<Option<String>, AllocError> {
    let told = match world.out.sink().reason() {
        Some(Reason::Closed) => return Ok(None),
        Some(reason) => unwritten(alloc, Some(reason))?,
        None => unsaved(alloc, named.image_out, world.image_out.reason())?,
    };
    Ok(Some(message_of(alloc, &told)?))
}

/// The message of an image, from the line that was written of it.
fn of_refused_image<R: Files + Input + Print + AllocGlobal, P: Drop>(
    alloc: Global,
    words: &[String],
    named: Named<'_>,
    world: &FileWorld<'_, R, P>,
) -> Result<Option<String>, AllocError> {
    let (Some(text), Some(image), Some(line)) = (
        world.program.kept(),
        world.image_in.kept(),
        world.out.kept(),
    ) else {
        return plain(alloc, "the image was refused");
    };
    let line = String::from_utf8_lossy(alloc, line)?;
    if let Some(name) = other_struct(line.as_str()) {
        let what = format!(in alloc;
            "{}: struct {name} isn't the same in {} as in {}; the pool is as before",
            named.image_in, named.program, named.former
        )?;
        return plain(alloc, what.as_str());
    }
    let held = world.image_in.count();
    if let Some(what) = other_count(alloc, words, named.image_in, line.as_str(), held)? {
        return plain(alloc, what.as_str());
    }
    let refusal = refusal_of(alloc, words, line.as_str(), image);
    let is_image = image.starts_with(b"CNVMPOOL");
    let found = image_digest(alloc, image)?;
    let wanted = digest_text(alloc, &digest(text))?;
    let digests = Digests {
        found: found.as_str(),
        wanted: wanted.as_str(),
    };
    let told = of_image(alloc, named.image_in, refusal, is_image, digests)?;
    Ok(Some(message_of(alloc, &told)?))
}

/// What is wrong with a file of another number of pools than there are workers, if that was written
/// of it: the first pool that is missing is too short, or the last one too long. So many bytes of
/// the file were read.
fn other_count(
    alloc: Global,
    words: &[String],
    path: &str,
    line: &str,
    held: u64,
) -> Result<Option<String>, AllocError> {
    let Ok(Plan::WorkersPool { workers, .. }) = plan_of(alloc, words) else {
        return Ok(None);
    };
    let mut parts = line.split_whitespace();
    parts.next();
    let kind = parts.next().unwrap_or("");
    let found = number(parts.next());
    let wanted = number(parts.next()).unsigned_abs();
    if kind == "short" && found == 0 && held > 0 && wanted > 0 {
        let pools = held / wanted;
        let noun = if pools == 1 { "pool" } else { "pools" };
        let what = format!(in alloc;
            "{path}: holds {pools} {noun}, and `--workers {workers}` asks for more"
        )?;
        return Ok(Some(what));
    }
    if kind == "sizes" && held == workers.saturating_mul(wanted).saturating_add(1) {
        let what = format!(in alloc;
            "{path}: holds more pools than `--workers {workers}` asks for"
        )?;
        return Ok(Some(what));
    }
    Ok(None)
}

/// The struct that the last line names, if that is `image shape NAME`.
fn other_struct(answers: &str) -> Option<&str> {
    let mut found = None;
    let mut is_next = false;
    for word in answers.split_whitespace() {
        found = if is_next { Some(word) } else { None };
        is_next = word == "shape";
    }
    found
}

/// The refusal that a line `image KIND A B` tells.
fn refusal_of(alloc: Global, words: &[String], line: &str, image: &[u8]) -> ImageRefusal {
    let mut parts = line.split_whitespace();
    parts.next();
    let kind = parts.next().unwrap_or("");
    let found = number(parts.next());
    let wanted = number(parts.next());
    if kind == "short" {
        return short(
            alloc,
            words,
            image,
            found.unsigned_abs(),
            wanted.unsigned_abs(),
        );
    }
    if kind == "version" {
        return ImageRefusal::Version(found, wanted);
    }
    if kind == "sizes" {
        let option = match other_size(alloc, words, image) {
            Some(size) => Some(size.option),
            None => None,
        };
        return ImageRefusal::Sizes(option, found, wanted);
    }
    if kind == "digest" {
        return ImageRefusal::Digest;
    }
    if kind == "content" {
        return ImageRefusal::Content(found.unsigned_abs(), wanted);
    }
    ImageRefusal::Magic
}

fn number(word: Option<&str>) -> i64 {
    match word {
        Some(word) => word.parse::<i64>().unwrap_or(0),
        None => 0,
    }
}

/// The refusal of an image that is too short: by the first size in which it differs, if it begins
/// as an image does.
fn short(alloc: Global, words: &[String], image: &[u8], found: u64, needed: u64) -> ImageRefusal {
    if image.starts_with(b"CNVMPOOL") {
        if let Some(size) = other_size(alloc, words, image) {
            let held = size.held.cast_signed();
            return ImageRefusal::Sizes(Some(size.option), held, size.asked.cast_signed());
        }
    }
    ImageRefusal::Short(found, needed)
}

/// A size that an option asks for, and another one that an image has.
#[derive(Clone, Copy)]
struct OtherSize {
    option: &'static str,
    held: u64,
    asked: u64,
}

/// The first size in which the image differs.
fn other_size(alloc: Global, words: &[String], image: &[u8]) -> Option<OtherSize> {
    let (slots, records, ticks) = sizes_asked(alloc, words)?;
    let sizes = [
        (2usize, "--slots", slots),
        (3, "--log", records),
        (5, "--ticks", ticks),
    ];
    for (place, option, asked) in sizes {
        let held = word_at(image, place);
        if held != asked && held > 0 {
            return Some(OtherSize {
                option,
                held,
                asked,
            });
        }
    }
    None
}

/// The slots, the records and the ticks of a command that opens a pool.
fn sizes_asked(alloc: Global, words: &[String]) -> Option<(u64, u64, u64)> {
    match plan_of(alloc, words).ok()? {
        Plan::Run {
            slots,
            records,
            ticks,
            ..
        } => Some((slots, records, ticks)),
        Plan::RunPool {
            slots,
            records,
            ticks,
            ..
        } => Some((slots, records, ticks)),
        Plan::ServePool {
            slots,
            records,
            ticks,
            ..
        } => Some((slots, records, ticks)),
        Plan::WorkersPool {
            slots,
            records,
            ticks,
            ..
        } => Some((slots, records, ticks)),
        _ => None,
    }
}

/// A word of an image, its lowest byte first; 0 past its end.
fn word_at(image: &[u8], place: usize) -> u64 {
    let mut word = 0u64;
    for at in 0..8usize {
        let byte = place
            .saturating_mul(8)
            .saturating_add(7usize.saturating_sub(at));
        let value = image.get(byte).copied().unwrap_or(0);
        word = word.wrapping_mul(256).wrapping_add(u64::from(value));
    }
    word
}

/// The digest of the text that an image was made from; an empty text where it is too short.
fn image_digest(alloc: Global, image: &[u8]) -> Result<String, AllocError> {
    if image.len() < 96 {
        return Ok(String::new(alloc));
    }
    let digest = [
        word_at(image, 8).cast_signed(),
        word_at(image, 9).cast_signed(),
        word_at(image, 10).cast_signed(),
        word_at(image, 11).cast_signed(),
    ];
    digest_text(alloc, &digest)
}

fn digest_text(alloc: Global, digest: &[i64; 4]) -> Result<String, AllocError> {
    let mut text = String::new(alloc);
    push_digest(&mut text, digest.as_slice())?;
    Ok(text)
}
