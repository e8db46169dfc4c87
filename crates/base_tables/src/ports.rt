//! Sources and sinks that fail by number, in memory and as files.

use nvm_base::{
    MemSink, MemSource, ReadAllFault, StdSink, StdSource, WriteFault, read_all, read_up_to,
    write_all,
};
use std::alloc::{AllocError, Global};
use std::fs;
use std::test::Fail;

/// Reads the five bytes 1 to 5, at most `most` a read; the read number `fails` fails. Answers how
/// many bytes came, if they are the first ones.
fn read_five(
    alloc: Global,
    most: usize,
    fails: u64,
    limit: usize,
) -> Result<Result<usize, ReadAllFault>, AllocError> {
    let five = [1, 2, 3, 4, 5];
    let mut source = MemSource::new(alloc, &five, most.max(1), &[fails])?;
    match read_all(alloc, &mut source, limit.min(9)) {
        Ok(bytes) if bytes.as_slice() == five.as_slice() => Ok(Ok(5)),
        Ok(_) => Ok(Ok(0)),
        Err(fault) => Ok(Err(fault)),
    }
}

#[test]
fn reads_fail_by_number(rt: HostRuntime) -> Result<(), Fail> {
    let fault = Err(ReadAllFault::ReadFault);
    let long = Err(ReadAllFault::Long);
    for (most, fails, limit, want) in [
        (1, 9, 5, Ok(5)),
        (2, 9, 5, Ok(5)),
        (9, 9, 5, Ok(5)),
        (9, 9, 9, Ok(5)),
        (1, 9, 4, long),
        (1, 5, 4, long),
        (9, 9, 0, long),
        (1, 0, 5, fault),
        (1, 4, 5, fault),
        (1, 5, 5, fault),
        (9, 1, 5, fault),
        (1, 6, 5, Ok(5)),
    ] {
        let got = read_five(rt.alloc(), most, fails, limit)?;
        assert_eq!(rt;
            got,
            want,
            "{most} a read, read {fails} fails, limit {limit}"
        );
    }
    let mut source = MemSource::new(rt.alloc(), &[1, 2, 3], 1, &[])?;
    let first = read_up_to(rt.alloc(), &mut source, 2);
    assert!(rt; matches!(&first, Ok(bytes) if bytes.as_slice() == [1, 2].as_slice()));
    Ok(())
}

/// Writes the five bytes 1 to 5 to a sink with room for `room`; the write number `fails` fails.
/// Answers whether all was written, and how many bytes were, if they are the first ones.
fn write_five(alloc: Global, room: usize, fails: u64) -> Result<(bool, usize), AllocError> {
    let five = [1, 2, 3, 4, 5];
    let mut sink = MemSink::new(alloc, room, &[fails])?;
    let all = write_all(&mut sink, &five).is_ok();
    let written = sink.bytes();
    if five.starts_with(written) {
        Ok((all, written.len()))
    } else {
        Ok((all, 9))
    }
}

#[test]
fn writes_fail_by_number(rt: HostRuntime) -> Result<(), Fail> {
    for (room, fails, want) in [
        (5, 9, (true, 5)),
        (6, 1, (true, 5)),
        (4, 9, (false, 4)),
        (4, 1, (false, 4)),
        (0, 9, (false, 0)),
        (5, 0, (false, 0)),
    ] {
        let got = write_five(rt.alloc(), room, fails)?;
        assert_eq!(rt; got, want, "room {room}, write {fails} fails");
    }
    Ok(())
}

#[test]
fn files_are_read_and_written(rt: HostRuntime) -> Result<(), Fail> {
    let path = "base_tables_files_are_read_and_written.tmp";
    let written = write_all(&mut StdSink::file(&rt, path), &[7, 0, 255]);
    let read = read_all(rt.alloc(), &mut StdSource::new(&rt, path), 3);
    let missing = read_all(rt.alloc(), &mut StdSource::new(&rt, "no/such/file"), 3);
    let nowhere = write_all(&mut StdSink::file(&rt, "no/such/file"), &[7]);
    let standard = write_all(&mut StdSink::standard(&rt), b"standard output\n");
    fs::remove_file(&rt, path)?;
    assert_eq!(rt; written, Ok(()));
    assert!(rt; matches!(&read, Ok(bytes) if bytes.as_slice() == [7, 0, 255].as_slice()));
    assert!(rt; matches!(missing, Err(ReadAllFault::ReadFault)));
    assert_eq!(rt; nowhere, Err(WriteFault));
    assert_eq!(rt; standard, Ok(()));
    Ok(())
}
