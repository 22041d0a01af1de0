//! The reader of a fuzzer's bytes, the texts and names that it reads, and why a call fails.
#![tactic(auto)]

mod error;
pub mod laws;
mod names;
mod offers;
mod texts;
mod unstructured;

pub use error::Error;
pub use names::{
    Labelled, MOST_NAME_LEN, TakenNames, new_kebab_string, new_string, unique_kebab_string,
    unique_string, unique_url,
};
pub use offers::choose_offered;
pub use texts::{MAX_CUSTOM_NAME_LEN, arbitrary_bytes, limited_string};
pub use unstructured::Unstructured;
