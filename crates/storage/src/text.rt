// Paths as they stand in a line or a description, as text.
use anyhow::{Context, anyhow};
use std::alloc::Global;
use std::str;

// The text of a path.
pub fn text_of(heap: Global, path: &[u8]) -> anyhow::Result<String> {
    match str::from_utf8(path) {
        Ok(text) => Ok(text.to_string(heap)?),
        Err(_) => {
            let text = String::from_utf8_lossy(heap, path)?;
            Err(anyhow!("the path {text} is not in UTF-8"))
        }
    }
}
