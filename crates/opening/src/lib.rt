// The opening of an array over a shelf whose cells may hold what no calls of an array left, as where they come from damaged devices.
#![tactic(auto)]

mod agreement;
mod deciding;
mod opened;
mod reading;

pub use crate::agreement::agrees;
pub use crate::opened::{Opened, open};
