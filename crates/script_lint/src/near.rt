//! The command whose name is near to a word.

use script_lines::verb::Verb;
use std::alloc::{AllocError, Global};
use std::str;
use strsim::osa_distance;

// The command whose name the word is but for the case of letters, or within one letter of (left out, added, changed
// after the first one, or swapped with its neighbour), if there is exactly one. It fails only if memory runs out. What
// is near is up to `strsim`: no clause speaks of it.
pub(crate) fn near_verb(alloc: Global, word: &[u8]) -> Result<Option<Verb>, AllocError> {
    let mut near = None;
    if let Ok(name) = str::from_utf8(word) {
        for verb in Verb::ALL {
            if name.eq_ignore_ascii_case(verb.name()) {
                return Ok(Some(verb));
            }
            if osa_distance(alloc, name, verb.name())? <= 1 && !is_another(word, verb.name()) {
                if near.is_some() {
                    return Ok(None);
                }
                near = Some(verb);
            }
        }
    }
    Ok(near)
}

// Whether a word of as many letters as the name has another first letter: `set` isn't meant as `get`.
fn is_another(word: &[u8], name: &str) -> bool {
    match (word, name.as_bytes()) {
        ([first, ..], [own, next, ..]) => {
            word.len() == name.len() && first != own && first != next
        }
        _ => false,
    }
}
