//! Runs of `filter` on made files, and the greatest made summary.

use crate::running::{calls, list_of, printed, status, words_of};
use crate::tests::SUMMARY_6;
use apf_base::{List, MemShelf, MemSink};
use std::test::Fail;

#[test]
fn reports_of_made_files_end_with_the_summary(rt: HostRuntime) -> Result<(), Fail> {
    let alloc = rt.alloc();
    let mut shelf = MemShelf::new(alloc, 4096, List::new(alloc), List::new(alloc));
    let script = printed(alloc, &["make", "script", "6"])?;
    let capture = printed(alloc, &["make", "capture", "6"])?;
    shelf.add("s", list_of(alloc, &script)?)?;
    shelf.add("c", list_of(alloc, &capture)?)?;
    let words = words_of(alloc, &["filter", "s", "c"])?;
    let mut out = MemSink::new(alloc, 65536, 65536, calls(alloc, 0)?)?;
    let mut err = MemSink::new(alloc, 65536, 65536, calls(alloc, 0)?)?;
    assert_eq!(rt; status(alloc, &words, &mut shelf, &mut out, &mut err), 0);
    assert!(rt; out.bytes().ends_with(SUMMARY_6.as_bytes()));
    Ok(())
}

#[test]
fn test_summary_of_100000(rt: HostRuntime) -> Result<(), Fail> {
    let alloc = rt.alloc();
    let words = words_of(alloc, &["make", "summary", "100000"])?;
    let mut shelf = MemShelf::new(alloc, 1, List::new(alloc), List::new(alloc));
    let mut out = MemSink::new(alloc, 4096, 4096, calls(alloc, 0)?)?;
    let mut err = MemSink::new(alloc, 4096, 4096, calls(alloc, 0)?)?;
    assert_eq!(rt; status(alloc, &words, &mut shelf, &mut out, &mut err), 0);
    Ok(())
}
