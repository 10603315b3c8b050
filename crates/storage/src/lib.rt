// Archives as they stand on disk: opened from their descriptions and images, and saved.
#![tactic(auto)]

mod archive;
mod field_kind;
mod filing;
mod image;
mod origin;
mod part;
mod saving;
mod text;

pub use crate::archive::{Archive, described, first_described, fit_places, open_described};
pub use crate::field_kind::{FieldKind, plan_of};
pub use crate::filing::{Filing, finish_left, is_there};
pub use crate::image::image_bytes;
pub use crate::origin::{Image, Inner, Origin, Trouble};
pub use crate::part::{NotServed, Part, Row};
pub use crate::saving::save;
pub use crate::text::text_of;
