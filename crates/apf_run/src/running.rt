//! How tests run commands, over files and sinks in memory.

use crate::top::run;
use apf_base::{List, MemShelf, MemSink};
use std::alloc::Global;
use std::test::Fail;

/// The bytes as a list.
pub fn list_of(alloc: Global, bytes: &[u8]) -> Result<List<u8>, Fail> {
    let mut list = List::new(alloc);
    list.extend(bytes)?;
    Ok(list)
}

/// The number of a call that is to fail, or of none where it is 0.
pub fn calls(alloc: Global, number: u64) -> Result<List<u64>, Fail> {
    let mut list = List::new(alloc);
    if number > 0 {
        list.push(number)?;
    }
    Ok(list)
}

/// The words of a command line.
pub fn words_of(alloc: Global, words: &[&str]) -> Result<Vec<String>, Fail> {
    let mut list = Vec::new(alloc);
    for word in words {
        list.push(String::from_str(alloc, word)?)?;
    }
    Ok(list)
}

/// A sink of 4096 bytes that takes three at a time, and fails at the call with this number.
pub fn sink_of(alloc: Global, fail: u64) -> Result<MemSink, Fail> {
    Ok(MemSink::new(alloc, 3, 4096, calls(alloc, fail)?)?)
}

/// The one call, of whose clauses no test needs any.
pub fn status(
    alloc: Global,
    words: &[String],
    shelf: &mut MemShelf,
    out: &mut MemSink,
    err: &mut MemSink,
) -> u8 {
    run(alloc, words, shelf, out, err)
}

/// What a command prints that reads no file.
pub fn printed(alloc: Global, words: &[&str]) -> Result<Vec<u8>, Fail> {
    let words = words_of(alloc, words)?;
    let mut shelf = MemShelf::new(alloc, 1, List::new(alloc), List::new(alloc));
    let mut out = sink_of(alloc, 0)?;
    let mut err = sink_of(alloc, 0)?;
    status(alloc, &words, &mut shelf, &mut out, &mut err);
    Ok(out.bytes().to_vec(alloc)?)
}

/// The program that the command prints.
pub fn printed_program(alloc: Global, address: &str, flags: &str) -> Result<Vec<u8>, Fail> {
    let line = printed(
        alloc,
        &["program", "02:00:00:00:00:01", "2048", address, flags],
    )?;
    Ok(hex::decode(alloc, line.trim_ascii_end())?)
}
