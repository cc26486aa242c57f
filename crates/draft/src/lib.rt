// Drafts: what a mill and a school agree on beside the key. Any bytes are read to a draft, or to the first fault.
#![tactic(auto)]

mod cursor;
pub mod draft;
mod found;
pub mod read;
mod reader;
