// Operations on a text, and what one becomes that another was done before.
#![tactic(auto)]

pub mod entry;
pub mod operation;
mod theorems;
pub mod transform;
