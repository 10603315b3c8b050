// The archive that the program keeps, and the account that it gives.
#![tactic(auto)]

mod carrying;
mod contents;
mod dispatch;
mod fault;
mod loss;
mod report;
mod stripe;
mod stripes;
mod whole;

pub use crate::fault::Fault;
pub use crate::loss::Loss;
pub use crate::report::Report;
pub use crate::stripe::{Rewrite, Stripe};
pub use crate::whole::Archive;
