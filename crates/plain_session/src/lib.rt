// One session of the plain caster: who has endorsed which number, which copies are under way, and what a console does when an
// endorsement reaches it. docs/casters.md has the rules.
#![tactic(auto)]

mod agenda;
mod endorsement;
mod places;
mod row;
mod session_table;
mod setting;

pub use agenda::Agenda;
pub use endorsement::Endorsement;
pub use places::{Route, SESSIONS, Vote};
pub use row::Row;
pub use session_table::SessionTable;
pub use setting::Setting;
