use crate::{
    FileShelf, List, MemShelf, MemSink, MemSource, ReadAllError, Shelf, Sink, Source, StdSink,
    read_all, write_all,
};
use std::alloc::Global;
use std::fs;
use std::test::Fail;

fn read_fully<S: Source>(
    alloc: Global,
    src: &mut S,
    limit: usize,
    into: &mut List<u8>,
) -> Result<(), ReadAllError> {
    read_all(alloc, src, limit, into)
}

#[test]
fn lists_grow(rt: HostRuntime) -> Result<(), Fail> {
    let alloc = rt.alloc();
    let mut list = List::of(alloc, [1u8, 2])?;
    list.reserve(4)?;
    list.push(3)?;
    list.extend(&[4, 5])?;
    list.append(List::of(alloc, [6])?)?;
    let mut text = List::new(alloc);
    text.append(List::of_text(String::from_str(alloc, "six")?))?;
    assert_eq!(rt; *text.as_slice(), *b"six".as_slice());
    assert_eq!(rt; *list.as_slice(), *[1, 2, 3, 4, 5, 6].as_slice());
    assert_eq!(rt; list.remove(0), Some(1));
    list.truncate(2);
    assert_eq!(rt; *list.as_slice(), *[2, 3].as_slice());
    Ok(())
}

#[test]
fn memory_ends(rt: HostRuntime) -> Result<(), Fail> {
    let alloc = rt.alloc();
    let mut source = MemSource::new(List::of(alloc, [1, 2, 3])?, 2, List::new(alloc));
    let mut bytes = List::new(alloc);
    assert_eq!(rt; read_fully(alloc, &mut source, 3, &mut bytes), Ok(()));
    assert_eq!(rt; *bytes.as_slice(), *[1, 2, 3].as_slice());
    let mut shelf = MemShelf::new(alloc, 2, List::new(alloc), List::new(alloc));
    shelf.add("a", List::of(alloc, [4, 5, 6])?)?;
    assert!(rt; shelf.fetch("b").is_err());
    assert!(rt; shelf.fetch("a").is_ok());
    assert_eq!(rt;
        read_fully(alloc, &mut shelf, 2, &mut bytes),
        Err(ReadAllError::TooLong)
    );
    let mut sink = MemSink::new(alloc, 2, 3, List::new(alloc))?;
    assert!(rt; write_all(&mut sink, b"abcd").is_err());
    assert_eq!(rt; *sink.bytes(), *b"abc".as_slice());
    Ok(())
}

#[test]
fn files_are_read(rt: HostRuntime) -> Result<(), Fail> {
    let alloc = rt.alloc();
    let name = "apf_base_file_shelf";
    fs::write(&rt, name, "some bytes")?;
    let mut bytes = List::new(alloc);
    let mut shelf = FileShelf::new(alloc, &rt)?;
    assert!(rt; shelf.fetch("apf_base_no_such_file").is_err());
    assert!(rt; shelf.fetch(name).is_ok());
    assert_eq!(rt; read_fully(alloc, &mut shelf, 10, &mut bytes), Ok(()));
    assert_eq!(rt; *bytes.as_slice(), *b"some bytes".as_slice());
    fs::remove_file(&rt, name)?;
    Ok(())
}

#[test]
fn standard_output_is_written(rt: HostRuntime) {
    let mut sink = StdSink::new(rt.stdout());
    assert!(rt; write_all(&mut sink, b"apf_base writes a line\n").is_ok());
}
