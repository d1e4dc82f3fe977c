//! What several openers of one file may see: the law of lawful reports, over definitions alone.
#![tactic(auto)]

mod courses;
mod events;
mod images;
mod layout;
mod one_aside;
mod plain;
mod reports;
mod turns;

pub use crate::courses::{commands_end, course_is_lawful};
pub use crate::events::{event_is_lawful, gift_is_lawful};
pub use crate::images::{image_map_answers, image_stays_accepted};
pub use crate::layout::{chains_keep, moves_go, walks_shift};
pub use crate::one_aside::commits::commit_shifts;
pub use crate::one_aside::events::events_beside;
pub use crate::one_aside::passing::moves_pass;
pub use crate::one_aside::sides::joined_side;
pub use crate::one_aside::starts::{starts_stand, starts_turn};
pub use crate::one_aside::turns::{
    alone_turns, beside_turns, end_is_turned, leaving_is_turned, waiting_is_turned,
};
pub use crate::plain::{beginning_stands, file_is_plain, quiet_is_plain};
pub use crate::reports::worked_reports;
pub use crate::turns::turn_is_lawful;
