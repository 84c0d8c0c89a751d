// Sets of consoles, and counting over them.
#![tactic(auto)]

mod console_set;
mod members;

pub use console_set::ConsoleSet;
pub use members::Members;
