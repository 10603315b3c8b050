// Reads one line of a script into the command that it gives, the shelf in memory that it begins, or the call that it asks of one.
#![tactic(auto)]

mod arguments;
mod calls;
mod command;
mod cursor;
mod number;
mod opening;
mod read;

pub use arguments::read_exactly;
pub use calls::{ShelfCall, read_call};
pub use command::{Command, Description, Fault, FieldName};
pub use cursor::{Cursor, name_of};
pub use number::{number as read_number, numbers};
pub use opening::{Opening, read_opening};
pub use read::read_command;
