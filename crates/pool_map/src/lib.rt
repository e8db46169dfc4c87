//! The pool as the source sees it: root words, and objects in numbered slots. It rests on
//! `nvm_base`. Its one contract for the crates above: each call of `Pool` does what the map of
//! `specs/PoolMap.antt` does, and `show_text` writes the text of a pool.
#![tactic(auto)]

mod checks;
mod fit;
mod law;
mod limits;
mod object;
mod pool;
mod shapes;
mod show;
mod trap;
mod width;
mod word;

pub use checks::element_in;
pub use fit::fits;
pub use law::laws;
pub use limits::{
    ARRAY_LENGTH, LEAST_SLOT, MOST_SLOT, OBJECT_WORDS, POINTED_ROOT, RECORDS, ROOT_WORDS, SLOTS,
    TICKS,
};
pub use object::Object;
pub use pool::Pool;
pub use shapes::{FieldShape, FieldShapes, Shapes, StructShape, StructShapes};
pub use show::show_text;
pub use trap::TrapKind;
pub use width::slot_words;
pub use word::PoolWord;
