//! Lines of answers, and what each tells.

use cnvm_script::next_line;
use plain_notes::PoolLeft;

/// The first line of a text, and the text after it; both are empty where the text is.
pub(crate) fn first_line(text: &[u8]) -> (&[u8], &[u8]) {
    if text.is_empty() {
        return (text, text);
    }
    next_line(text)
}

/// The text after the lines of a pool's slots.
pub(crate) fn after_slots(left: &[u8]) -> &[u8] {
    let mut rest = left;
    'lines: while rest.starts_with(b"slot ") && !rest.is_empty() {
        rest = next_line(rest).1;
    }
    rest
}

/// The text after the line that tells which trap ended the pool, if it begins with one.
pub(crate) fn after_dead(left: &[u8]) -> &[u8] {
    if left.starts_with(b"dead ") {
        return first_line(left).1;
    }
    left
}

/// The trap of a pool that takes no calls, if the line tells it.
pub(crate) fn unusable(line: &[u8]) -> Option<&[u8]> {
    after_head(line, b"refused unusable ")
}

/// The line after this head, if it begins with it.
fn after_head<'a>(line: &'a [u8], head: &[u8]) -> Option<&'a [u8]> {
    if line.starts_with(head) {
        return Some(line.split_at(line.len().min(head.len())).1);
    }
    None
}

/// How a call ended that trapped: its kind, and what is left of the pool.
#[derive(Clone, Copy)]
pub(crate) struct TrapEnd<'a> {
    pub kind: &'a [u8],
    pub left: PoolLeft,
}

/// The answers that tell a trap, and what each leaves of the pool.
const TRAP_HEADS: [(&str, PoolLeft); 4] = [
    ("trap ", PoolLeft::Unusable),
    ("recovered trap ", PoolLeft::Unusable),
    ("aborted ", PoolLeft::Restored),
    ("recovered aborted ", PoolLeft::Restored),
];

/// The trap that the line tells, if any.
pub(crate) fn trap_end(line: &[u8]) -> Option<TrapEnd<'_>> {
    for (head, left) in TRAP_HEADS {
        if let Some(kind) = after_head(line, head.as_bytes()) {
            return Some(TrapEnd { kind, left });
        }
    }
    None
}

/// Whether a line of these answers begins as one that tells a trap or a refusal.
pub(crate) fn any_tells(answers: &[u8]) -> bool {
    let mut begins = true;
    for (at, byte) in answers.iter().enumerate() {
        if begins && tells(*byte, &answers[at..]) {
            return true;
        }
        begins = *byte == b'\n';
    }
    false
}

/// Whether a text with this first byte begins as a line that tells a trap or a refusal.
fn tells(first: u8, text: &[u8]) -> bool {
    match first {
        b't' | b'a' | b'r' => text.starts_with(b"refused ") || trap_end(text).is_some(),
        _ => false,
    }
}

/// The number of a worker at the head of an answer, if there is one, and the rest.
pub(crate) fn worker_answer(line: &[u8]) -> (Option<u64>, &[u8]) {
    let mut number = 0u64;
    for (at, byte) in line.iter().enumerate() {
        if *byte == b' ' && at > 0 {
            return (Some(number), &line[at + 1..]);
        }
        if !byte.is_ascii_digit() {
            return (None, line);
        }
        number = number
            .saturating_mul(10)
            .saturating_add(u64::from(byte.saturating_sub(b'0')));
    }
    (None, line)
}
