// Commands, from the arguments or from the lines of a script.
use crate::help::{help, list_commands};
use crate::one_line::OneLine;
use anyhow::{Context, anyhow, bail};
use command::Fault;
use keeper::{Input, carry_out};
use orders::{Order, read_order};
use rehearsal::take_script;
use script::Script;
use std::io::{BufRead, BufReader};
use std::{env, fs};
use storage::text_of;

// What is said of a command that can't be read.
fn unread(fault: Fault) -> anyhow::Error {
    anyhow!("{fault}; `raskold help` lists the commands")
}

// The bytes of a file.
fn read_file(rt: &HostRuntime, path: &[u8]) -> anyhow::Result<Vec<u8>> {
    let name = text_of(rt.alloc(), path)?;
    Ok(fs::read(rt, &name).context(format_args!("{name} can't be read"))?)
}

// Carries out a command that is no script.
fn carry_out_order(rt: &HostRuntime, order: Order, input: Input) -> anyhow::Result<()> {
    match order {
        Order::Help(name) => help(rt, name),
        Order::Drill(Some(path)) => take_script(rt, read_file(rt, path)?.as_slice()),
        Order::Drill(None) if input == Input::Taken => bail!("a script runs a drill from a file"),
        Order::Drill(None) => take_script(rt, BufReader::new(rt.alloc(), rt.stdin())?),
        Order::Script(_) => bail!("a script runs no script"),
        Order::On { archive, task } => carry_out(rt, archive, task, input),
    }
}

// Carries out the line of a script.
fn carry_out_line(rt: &HostRuntime, line: &[u8], input: Input) -> anyhow::Result<()> {
    match read_order(rt.alloc(), line) {
        Ok(None) => Ok(()),
        Ok(Some(order)) => carry_out_order(rt, order, input),
        Err(fault) => Err(unread(fault)),
    }
}

// Prints a line of a script before what it does, unless it is empty or a remark.
fn echo(rt: &HostRuntime, line: &[u8]) -> anyhow::Result<()> {
    let line = line.trim_ascii();
    if line.is_empty() || line[0] == b'#' {
        return Ok(());
    }
    let text = String::from_utf8_lossy(rt.alloc(), line)?;
    println!(rt; "> {text}")?;
    Ok(())
}

// Carries out the lines of a script in turn. One that fails is named with what is wrong, and changes nothing.
fn run_script<R: BufRead + Drop>(rt: &HostRuntime, lines: R, input: Input) -> anyhow::Result<()> {
    let mut script = Script::new(rt.alloc(), lines);
    // No index: a reader may never end, and so its loop is bounded.
    for _ in 0..u64::MAX {
        if !script.advance()? {
            break;
        }
        echo(rt, &script.line)?;
        match carry_out_line(rt, &script.line, input) {
            Ok(()) => {}
            Err(e) => script.refuse(rt, OneLine(e))?,
        }
    }
    println!(rt; "lines {}, refused {}", script.lines, script.refused)?;
    Ok(())
}

// The arguments as a line: they are parted by blanks.
fn arguments_line(rt: &HostRuntime) -> anyhow::Result<String> {
    let mut line = String::new(rt.alloc());
    for argument in env::args(rt)?.skip(1) {
        line.push_str(&argument)?;
        line.push(' ')?;
    }
    Ok(line)
}

// Carries out the command of the arguments. Without one it lists the commands.
pub fn run_arguments(rt: &HostRuntime) -> anyhow::Result<()> {
    let line = arguments_line(rt)?;
    match read_order(rt.alloc(), line.as_bytes()) {
        Ok(None) => list_commands(rt),
        Ok(Some(Order::Script(Some(path)))) => {
            run_script(rt, read_file(rt, path)?.as_slice(), Input::Free)
        }
        Ok(Some(Order::Script(None))) => {
            run_script(rt, BufReader::new(rt.alloc(), rt.stdin())?, Input::Taken)
        }
        Ok(Some(order)) => carry_out_order(rt, order, Input::Free),
        Err(fault) => Err(unread(fault)),
    }
}
