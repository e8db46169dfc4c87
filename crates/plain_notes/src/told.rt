//! What is told of a refusal: what was found, and how to mend it.

use std::alloc::{AllocError, Global};

/// What was found, and notes that say how to mend it.
#[derive(Drop)]
pub struct Told {
    pub what: String,
    pub notes: Vec<String>,
}

impl Told {
    /// What was found, without a note.
    pub fn new(alloc: Global, what: &str) -> Result<Told, AllocError> {
        Ok(Told {
            what: String::from_str(alloc, what)?,
            notes: Vec::new(alloc),
        })
    }

    /// What was found, with these notes; an empty text is none.
    pub fn of(alloc: Global, what: &str, texts: &[&str]) -> Result<Told, AllocError> {
        let what = String::from_str(alloc, what)?;
        let notes = notes_of(alloc, texts)?;
        Ok(Told { what, notes })
    }

    /// The same with one more note.
    pub fn with(self, alloc: Global, note: &str) -> Result<Told, AllocError> {
        let Told { what, mut notes } = self;
        notes.push(String::from_str(alloc, note)?)?;
        Ok(Told { what, notes })
    }

    /// The same with the note, if there is one.
    pub fn with_some(self, alloc: Global, note: Option<String>) -> Result<Told, AllocError> {
        match note {
            Some(note) => self.with(alloc, note.as_str()),
            None => Ok(self),
        }
    }
}

fn notes_of(alloc: Global, texts: &[&str]) -> Result<Vec<String>, AllocError> {
    let mut notes = Vec::new(alloc);
    for text in texts {
        if !text.is_empty() {
            notes.push(String::from_str(alloc, text)?)?;
        }
    }
    Ok(notes)
}
