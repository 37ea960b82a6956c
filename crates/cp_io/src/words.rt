//! The words of the command line.

use std::{env, io};

/// The words of the command line without the program's name. The error is of the kind `OutOfMemory` for want of memory, and of another
/// where a word is no text.
pub fn program_words(rt: &HostRuntime) -> io::Result<Vec<String>> {
    let mut words = Vec::new(rt.alloc());
    for word in env::args(rt)?.skip(1) {
        words.push(word)?;
    }
    Ok(words)
}
