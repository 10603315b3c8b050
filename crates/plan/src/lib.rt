// Plans: how many bays hold data and how many hold checks, and the coefficient of each data bay in each check.
#![tactic(auto)]

mod any_plan;
mod bays;
mod checks;
mod entries;
mod groups_plan;
mod layout;
mod powers_plan;
mod refusal;
mod written_plan;

pub use crate::any_plan::AnyPlan;
pub use crate::bays::Bays;
pub use crate::checks::{check_word, moved_word};
pub use crate::entries::{entry, row};
pub use crate::groups_plan::Groups;
pub use crate::layout::{MOST_CHECK_BAYS, MOST_DATA_BAYS, Plan};
pub use crate::powers_plan::Powers;
pub use crate::refusal::Refusal;
pub use crate::written_plan::Written;
