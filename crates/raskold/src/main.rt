// Keeps archives on disk: reads a command from its arguments, or many from a script, and carries them out.
#![tactic(auto)]

mod help;
mod one_line;
mod running;

use crate::one_line::OneLine;
use crate::running::run_arguments;

fn main(rt: HostRuntime) -> Result<(), OneLine> {
    run_arguments(&rt).map_err(OneLine)
}
