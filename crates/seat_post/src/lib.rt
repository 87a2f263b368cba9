//! The post of a seat: its hand, and what the transaction in flight there has read and written.
//!
//! Each call steps on the table by the hand alone, and says what it makes of the post, whatever other seats do meanwhile.
#![tactic(auto)]

mod collecting;
mod ending;
mod joining;
mod phase;
mod post;
mod promoting;
mod reading;
mod renewing;
mod rescan;
mod rewriting;
mod search;
mod settled;
mod settling;
mod sharing;
mod snapshots;
mod telling;
mod writing;

pub use phase::Phase;
pub use post::Post;
pub use reading::ReadFault;
pub use rewriting::Room;
pub use settled::Settled;
