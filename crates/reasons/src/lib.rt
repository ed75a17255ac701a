// Why a call is refused, and why a reply is passed over: document 01's numbers, each by its name.

#![tactic(auto)]

mod passed_over;
mod refusal;

pub use passed_over::PassedOver;
pub use refusal::Refusal;
