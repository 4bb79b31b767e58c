//! Data channels: operations, events, and the answer of a channel by its history.
#![tactic(auto)]

mod answer;
mod chan_op;
mod channel;
mod channel_state;
mod event;
mod flags;
mod locked;
mod memory;
mod numbered;
mod reply;
mod seen;

pub use answer::{answer_law, event_by, flags_after, reply_made, reply_shown, session_law};
pub use chan_op::ChanOp;
pub use channel::Channel;
pub use channel_state::ChannelState;
pub use event::Event;
pub use flags::Flags;
pub use locked::Locked;
pub use memory::Memory;
pub use numbered::Numbered;
pub use pp_numbers::{CHANNELS, ChannelNo};
pub use reply::Reply;
pub use seen::Seen;
