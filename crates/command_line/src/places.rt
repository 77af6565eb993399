//! Where the words stand that are neither an option nor the value of one.

ghost use Rattle.std.specs.Prelude.{◌≡◌, ◌<◌, ◌^◌, map, length, IfOk};
ghost use Rattle.std.specs.String.{string_bytes};
ghost use Rattle.command_line.specs.Places.{is_option, wants_value, places};

use out_of_memory::OutOfMemory;
use std::alloc::Global;

// Whether the word is an option where one may stand.
fn is_option(word: &[u8]) -> bool
    ensures { result ≡ is_option word.now }
{
    word.starts_with(b"-") && 1 < word.len()
}

// Whether the value of this option is the next word.
fn wants_value(word: &[u8]) -> bool
    ensures { result ≡ wants_value word.now }
{
    word == b"-p".as_slice() || (word.starts_with(b"--") && !word.contains(&b'='))
}

/// The places, from 1, of the words that are neither an option nor the value of one.
pub(crate) fn places(alloc: Global, words: &[String]) -> Result<Vec<u32>, OutOfMemory>
    requires { length words.now < 2 ^ 31 }
    ensures { IfOk result (λ found. found.items ≡ places (map string_bytes words.now)) }
{
    let mut found = Vec::new(alloc);
    let mut waits = false;
    let mut ended = false;
    for i in 0..words.len() {
        let word = words[i].as_bytes();
        if ended {
            found.push(i as u32 + 1)?;
        } else if word == b"--".as_slice() {
            ended = true;
        } else if is_option(word) {
            waits = wants_value(word);
        } else if waits {
            waits = false;
        } else {
            found.push(i as u32 + 1)?;
        }
    }
    Ok(found)
}
