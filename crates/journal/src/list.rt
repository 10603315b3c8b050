ghost use Rattle.std.specs.Prelude.{◌≡◌, map, IfOk};
ghost use Rattle.std.specs.List.{AllByRecursion};
ghost use Rattle.std.specs.String.{string_bytes};
ghost use Rattle.command.specs.Tokens.{tokens};
ghost use Rattle.description.specs.Printable.{IsToken};
ghost use Rattle.journal.specs.Lists.{listed};

use std::alloc::{AllocError, Global};

// The list of some paths, each in a line of its own. Where no path has a blank, they are the tokens of the list.
pub fn list_text(heap: Global, paths: &[String]) -> Result<String, AllocError>
    ensures text { IfOk result (λ t. string_bytes t ≡ listed (map string_bytes paths.now)) }
    ensures read_back { IfOk result (λ t. AllByRecursion IsToken (map string_bytes paths.now) → tokens (string_bytes t) ≡ map string_bytes paths.now) }
{
    let mut text = String::new(heap);
    for path in paths {
        text.push_str(path)?;
        text.push('\n')?;
    }
    Ok(text)
}
