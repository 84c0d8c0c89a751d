// The configuration of a floor: why calls are refused, the draft, and the payload kinds.
#![tactic(auto)]

mod card;
mod draft;
mod payload;
mod refusal;
mod session;
mod session_result;

pub use card::{Card, CardPlan};
pub use draft::{Draft, DraftPlan};
pub use payload::Payload;
pub use refusal::Refusal;
pub use session::Session;
pub use session_result::SessionResult;
