// Reads a line as a command. Its first token is the command's name, its second mostly the path of the archive's description.
ghost use Rattle.command.specs.Cursors.{tokens_left};
ghost use Rattle.command.specs.Outcome.{Answers};
ghost use Rattle.orders.specs.Orders.{ReadsOrder, order_meant, ordered, task_meant, tasked};

use crate::order::{Order, Task};
use crate::paths::{last_path, optional_number, optional_path, optional_run};
use crate::verb::Verb;
use command::{Cursor, Fault, name_of, read_exactly};
use std::alloc::Global;

// The command that a line gives, or None where the line has no token, or where its first begins with '#'.
#[tactic(auto, unfolding(crate::specs::Orders::ordering))]
pub fn read_order<'a>(heap: Global, line: &'a [u8]) -> Result<Option<Order<'a>>, Fault>
    ensures { ReadsOrder line.now result }
{
    match name_of(line) {
        None => Ok(None),
        Some((name, arguments)) => {
            let verb = Verb::try_from(name)?;
            Ok(Some(read_named(heap, verb, arguments)?))
        }
    }
}

// The command of this name, with the tokens after it as its arguments.
fn read_named<'a>(heap: Global, verb: Verb, mut arguments: Cursor<'a>) -> Result<Order<'a>, Fault>
    ensures { Answers order_meant (ordered verb (tokens_left arguments.entry)) result }
{
    match verb {
        Verb::Help => Ok(Order::Help(optional_path(arguments)?)),
        Verb::Drill => Ok(Order::Drill(optional_path(arguments)?)),
        Verb::Script => Ok(Order::Script(optional_path(arguments)?)),
        verb => {
            let archive = arguments.next().ok_or(Fault::TokenCount)?;
            let task = read_task(heap, verb, arguments)?;
            Ok(Order::On { archive, task })
        }
    }
}

// The task of this name, with the tokens after the archive as its arguments. They begin with the third of the line.
fn read_task<'a>(heap: Global, verb: Verb, arguments: Cursor<'a>) -> Result<Task<'a>, Fault>
    ensures { Answers task_meant (tasked verb (tokens_left arguments.entry)) result }
{
    match verb {
        Verb::Create => {
            let [] = read_exactly::<0>(heap, arguments, 3)?;
            Ok(Task::Create)
        }
        Verb::Lay => Ok(Task::Lay(optional_path(arguments)?)),
        Verb::Write => {
            let [bay, place, word] = read_exactly::<3>(heap, arguments, 3)?;
            Ok(Task::Write { bay, place, word })
        }
        Verb::Read => {
            let [bay, place] = read_exactly::<2>(heap, arguments, 3)?;
            Ok(Task::Read { bay, place })
        }
        Verb::Print => Ok(Task::Print(optional_run(heap, arguments)?)),
        Verb::Survey => Ok(Task::Survey(optional_run(heap, arguments)?)),
        Verb::Exchange => {
            let [bay] = read_exactly::<1>(heap, arguments, 3)?;
            Ok(Task::Exchange { bay })
        }
        Verb::Sweep => Ok(Task::Sweep(optional_number(heap, arguments)?)),
        Verb::Status => {
            let [] = read_exactly::<0>(heap, arguments, 3)?;
            Ok(Task::Status)
        }
        Verb::Verify => {
            let [] = read_exactly::<0>(heap, arguments, 3)?;
            Ok(Task::Verify)
        }
        Verb::Put => Ok(Task::Put(last_path(arguments)?)),
        Verb::Get => Ok(Task::Get(last_path(arguments)?)),
        Verb::Help | Verb::Drill | Verb::Script => Err(Fault::UnknownCommand),
    }
}
