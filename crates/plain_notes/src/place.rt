//! Places in a text.

ghost use Rattle.std.specs.Prelude.{◌≡◌};
ghost use Rattle.plain_notes.specs.Place.{past_bytes, place_of, text_start};

/// A place in a text: its line and its column, both counted from 1. A column counts bytes.
#[derive(Clone, Copy)]
pub struct Place {
    pub line: u64,
    pub column: u64,
}

/// The place of the byte that has `start` bytes before it.
pub fn place_of(text: &[u8], start: u64) -> Place
    ensures { result ≡ place_of text.now start }
{
    past_bytes(&text[..text.len().min(start as usize)])
}

/// The place after these bytes.
fn past_bytes(bytes: &[u8]) -> Place
    ensures { result ≡ past_bytes text_start bytes.now }
{
    let mut place = Place { line: 1, column: 1 };
    for byte in bytes {
        if *byte == b'\n' {
            place.line += 1;
            place.column = 1;
        } else {
            place.column += 1;
        }
    }
    place
}
