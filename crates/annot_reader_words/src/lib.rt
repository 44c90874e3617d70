//! Annotations as words in a tree: those that stand where none may, and what words and their items say, as plain data.
#![tactic(auto)]

mod again;
mod around;
mod collect;
mod cuts;
mod declaration;
mod error;
mod global;
mod items;
mod mutexes;
mod notes;
mod parts;
mod places;
mod walk;
mod word;

pub use again::declared_later;
pub use around::{bare_after, bare_around};
pub use cuts::names_cut;
pub use declaration::decl_node;
pub use error::AnnotationError;
pub use global::global_notes;
pub use items::one_item;
pub use mutexes::mutex;
pub use notes::{Annots, Param};
pub use parts::split_parts;
pub use places::{bare_annots, bare_decls, bare_parts, bare_rest};
pub use word::{FunctionWord, ParameterWord, is_guarded_by};
