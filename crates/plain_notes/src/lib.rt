//! What is told to a person, made from plain values: how a message is laid out, and the nearest of
//! several names; what to write instead of refused tokens, from how they are spelled; and messages
//! of refused words, lines of scripts, files and images, and traps. It rests on `nvm_base`. Its
//! one contract for the crates above: a message of a place in a text begins with the place's line
//! and column.
#![tactic(auto)]

mod could_stand;
mod file;
mod image;
mod layout;
mod left;
mod lexical;
mod named;
mod near;
mod place;
mod script;
mod spelled;
mod told;
mod trap;
mod words;
mod workers_script;

pub use could_stand::{MARKS, NAMES, WORDS, expected};
pub use file::{unread, unsaved, unwritten};
pub use image::{Digests, ImageRefusal, of_image, of_unusable_image};
pub use layout::{message_at, message_in_line, message_of, message_of_file, push_shown};
pub use left::left_out;
pub use lexical::{bad_byte, bad_number};
pub use named::transaction_name;
pub use near::nearest;
pub use place::{Place, place_of};
pub use script::of_line;
pub use spelled::{Spelled, first_token, is, is_one};
pub use told::Told;
pub use trap::{PoolLeft, of_broken_check, of_storm_trap, of_trap, of_worker_trap};
pub use words::of_words;
pub use workers_script::of_workers_line;
