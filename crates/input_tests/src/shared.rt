//! What the tests share: names, trees of texts, and the faults of answers.

use input_schema::{File, InputFault, InputKind, SchemaError};
use std::alloc::Global;
use std::test::Fail;
use text_tokens::Name;
use yaml_text::{Tree, read};

pub(crate) fn names_of(alloc: Global, texts: &[&str]) -> Result<Vec<Name>, Fail> {
    let mut names = Vec::new(alloc);
    for text in texts {
        names.push(Name::new(alloc, text)?.ok_or("not a name")?)?;
    }
    Ok(names)
}

pub(crate) fn tree_of(alloc: Global, text: &str) -> Option<Tree> {
    if text.len() > 100000 {
        return None;
    }
    read(alloc, text.as_bytes()).ok()
}

pub(crate) fn fault_in<T: Drop>(answer: Result<T, SchemaError>) -> Option<InputFault> {
    match answer {
        Err(SchemaError::Fault(fault)) => Some(fault),
        _ => None,
    }
}

/// Whether this is that fault.
pub(crate) fn is_fault(found: Option<InputFault>, file: File, line: u32, kind: InputKind) -> bool {
    found == Some(InputFault { file, line, kind })
}
