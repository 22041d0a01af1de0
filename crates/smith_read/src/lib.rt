//! Components from their bytes, as trees of nodes, and back: readers and writers of numbers, texts, lists, types and
//! sections.
#![tactic(auto)]

mod core_entries;
mod core_types;
mod entries;
mod error;
mod externs;
mod frames;
pub mod laws;
mod lists;
mod module_sections;
mod nodes;
mod numbers;
mod offsets;
mod parts;
mod search;
mod section_entries;
mod steps;
mod type_nodes;
mod types;
mod unread;
mod writing;

pub use core_types::{CoreNode, ModuleNode};
pub use entries::contents_of;
pub use error::ReadError;
pub use externs::named_of;
pub use frames::{BrokenFrame, Framing, framed};
pub use lists::{Readable, frame_of, many_of, read_text, skip};
pub use module_sections::{ModuleSections, module_sections_of};
pub use nodes::{ComponentTree, ImportNode, PartNode};
pub use numbers::{byte_of, count_of};
pub use offsets::offset_of;
pub use parts::{MOST_DEPTH, read};
pub use search::Search;
pub use smith_tree::{CustomSection, Export, Func};
pub use steps::{Contents, Step, Steps};
pub use type_nodes::{DeclNode, TypeNode};
pub use unread::{Reason, Unread, malformed};
pub use writing::{WriteError, write};
