//! The numbers of data channels and peripheral processors, and the profile that says which of them
//! a machine has; and what the caller of a run or a view bounds: how long threads go on, which
//! turns are drawn, which words of memory are shown.
#![tactic(auto)]

mod bounds;
mod channel_no;
mod limits;
mod pp_no;
mod profile;
mod window;

pub use bounds::Bounds;
pub use channel_no::{CHANNELS, ChannelNo};
pub use limits::Limits;
pub use pp_no::{PROCESSORS, PpNo};
pub use profile::Profile;
pub use window::{MOST_TURNS, Window};
