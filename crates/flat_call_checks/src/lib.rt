//! Scripts with their reports, and gates, of which tests of `flatland` are made.
//!
//! A gate keeps an order of the lines (order_gate, meeting_gate, look_gate) or hears of them
//! (reply_gate); flags has what its threads share. The scripts stand in texts, shell, sorts and
//! ratios.
#![tactic(auto)]

mod flags;
mod leaving;
mod look_gate;
mod meeting_gate;
mod order_gate;
mod ratios;
mod reply_gate;
mod reports;
mod shell;
mod sorts;
mod texts;

pub use flags::{SharedCount, SharedFlag, answered};
pub use leaving::{has_answer, mail_leaves_before, moved};
pub use look_gate::LookGate;
pub use meeting_gate::MeetingGate;
pub use order_gate::{OrderGate, is_at};
pub use ratios::{RATIOS, RATIOS_ORDER, RATIOS_REPORTED};
pub use reply_gate::{BeginGate, ReplyGate};
pub use reports::{has_line, is_fault, is_report};
pub use shell::{SHELL, SHELL_ORDER, SHELL_REPORTED};
pub use sorts::{SORTS, SORTS_REPORTED, SORTS_TOLD};
pub use texts::{
    AWAIT, AWAIT_REPORTED, DISPLAY_WAIT, DISPLAY_WAIT_ORDER, DISPLAY_WAIT_REPORTED, FILL,
    FILL_REPORTED, NEVER, PROBED, PROBED_AT_ONCE, PROBED_EARLY, PROBED_ORDER, PROBED_REPORTED, TWO,
    TWO_REPORTED, WAIT, WAIT_ORDER, WAIT_REPORTED,
};
