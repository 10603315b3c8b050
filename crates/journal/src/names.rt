ghost use Rattle.std.specs.Prelude.{◌≡◌, ◌++◌, codes, IfOk};
ghost use Rattle.std.specs.String.{string_bytes};

use std::alloc::{AllocError, Global};

// The path that a file is written aside under, before it gets its own.
pub fn aside_of(heap: Global, path: &str) -> Result<String, AllocError>
    ensures { IfOk result (λ t. string_bytes t ≡ path.now ++ codes ".new") }
{
    format!(in heap; "{path}.new")
}

// The path of the list of an archive whose description has this path.
pub fn list_of(heap: Global, archive: &str) -> Result<String, AllocError>
    ensures { IfOk result (λ t. string_bytes t ≡ archive.now ++ codes ".changing") }
{
    format!(in heap; "{archive}.changing")
}
