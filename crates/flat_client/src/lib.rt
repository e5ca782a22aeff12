//! A client of the service: one method for each call, by its own name and argument types.
//!
//! Begin at [`Client`]. What came of each call is said in specs/Clients: `Answers` for a call
//! that edits the session's private scene, `Enters` for one that makes an entry. Whatever a
//! caller does is answered; see [`CallError`].
#![tactic(auto)]

mod calls;
mod client;
mod entries;
mod error;
mod laws;
mod present;
mod waits;

pub use client::Client;
pub use error::CallError;
pub use laws::misuses_have_their_reason;
pub use present::{AcceptedPresent, NO_INSET, present_at};
pub use waits::{FIRST_NAP, LONGEST_NAP};
