//! Lists of bytes, and sources and sinks in memory.

use super::has_bytes;
use lego_io::{
    MemSink, MemSource, ReadAllFault, ReadFault, Sink, Source, WriteFault, read_all, write_all,
};
use of_types::{Act, ByteList, Stimulus, WorldStim};
use std::alloc::{AllocError, Global};
use std::test::Fail;

/// Bytes, the reads of them that fail, how many bytes are allowed, and how many are read.
type AllRead<'a> = (&'a [u8], &'a [u64], usize, Result<usize, ReadAllFault>);

static ALL_READ: [AllRead<'static>; 5] = [
    (b"", &[], 0, Ok(0)),
    (b"hello", &[], 5, Ok(5)),
    (b"hello", &[], 4, Err(ReadAllFault::TooLong)),
    (b"hello", &[2], 5, Err(ReadAllFault::Read)),
    (b"hello", &[3], 5, Ok(5)),
];

/// Tells whether the bytes are read, all of them, or are not for the reason that the row gives.
fn is_all_read(alloc: Global, row: &AllRead<'_>) -> Result<bool, AllocError> {
    let (bytes, fails, most, want) = row;
    let mut source = MemSource::new(alloc, bytes, fails)?;
    let read = read_all(alloc, &mut source, *most);
    drop(source);
    Ok(match read {
        Ok(read) => *want == Ok(read.len()) && has_bytes(ByteList::from_vec(read), bytes),
        Err(fault) => *want == Err(fault),
    })
}

#[test]
fn reads_all_or_says_why(rt: HostRuntime) -> Result<(), Fail> {
    for (number, row) in ALL_READ.iter().enumerate() {
        assert!(rt; is_all_read(rt.alloc(), row)?, "row {number}");
    }
    Ok(())
}

/// Tells whether so many bytes are read, or are not for the reason.
fn are_all_read(
    alloc: Global,
    count: usize,
    fails: &[u64],
    want: Result<usize, ReadAllFault>,
) -> Result<bool, AllocError> {
    let bytes = vec![in alloc; b'x'; count]?;
    let is_all_read = is_all_read(alloc, &(&bytes, fails, count, want));
    drop(bytes);
    is_all_read
}

/// Reads more than three pieces, and fails in the last.
#[test]
fn reads_all_pieces_or_says_why(rt: HostRuntime) -> Result<(), Fail> {
    assert!(rt; are_all_read(rt.alloc(), 200_000, &[], Ok(200_000))?);
    assert!(rt; are_all_read(rt.alloc(), 200_000, &[4], Err(ReadAllFault::Read))?);
    Ok(())
}

/// What reads into four bytes answer in turn, and the four bytes after each.
static READS: [(Result<usize, ReadFault>, &[u8; 4]); 6] = [
    (Err(ReadFault), b"----"),
    (Ok(4), b"abcd"),
    (Err(ReadFault), b"abcd"),
    (Ok(2), b"efcd"),
    (Ok(0), b"efcd"),
    (Ok(0), b"efcd"),
];

/// Tells whether reads into four bytes answer so in turn.
fn are_read(source: &mut MemSource) -> bool {
    let mut buf = [b'-'; 4];
    for (want, bytes) in &READS {
        if source.read(&mut buf) != *want || buf != **bytes {
            return false;
        }
    }
    true
}

#[test]
fn reads_fail_in_turn(rt: HostRuntime) -> Result<(), Fail> {
    let mut source = MemSource::new(rt.alloc(), b"abcdef", &[1, 3])?;
    let are_read = are_read(&mut source);
    drop(source);
    assert!(rt; are_read);
    Ok(())
}

/// Bytes that are written in turn, and what the sink answers.
static WRITES: [(&[u8], Result<usize, WriteFault>); 6] = [
    (b"abc", Ok(3)),
    (b"d", Err(WriteFault)),
    (b"", Ok(0)),
    (b"defg", Ok(2)),
    (b"fg", Err(WriteFault)),
    (b"", Ok(0)),
];

/// Tells whether the sink answers so in turn.
fn are_written(sink: &mut MemSink) -> bool {
    for (bytes, want) in &WRITES {
        if sink.write(bytes) != *want {
            return false;
        }
    }
    sink.bytes() == b"abcde".as_slice()
}

#[test]
fn writes_fail_in_turn_and_without_room(rt: HostRuntime) -> Result<(), Fail> {
    let mut sink = MemSink::new(rt.alloc(), 5, &[2])?;
    let are_written = are_written(&mut sink);
    drop(sink);
    assert!(rt; are_written);
    Ok(())
}

/// Tells whether the first bytes are written whole, and of the others only a front.
fn writes_a_front(sink: &mut MemSink) -> bool {
    write_all(sink, b"hello").is_ok()
        && write_all(sink, b" you") == Err(WriteFault)
        && sink.bytes() == b"hello yo".as_slice()
}

#[test]
fn writes_all_or_a_front(rt: HostRuntime) -> Result<(), Fail> {
    let mut sink = MemSink::new(rt.alloc(), 8, &[3])?;
    let writes_a_front = writes_a_front(&mut sink);
    drop(sink);
    assert!(rt; writes_a_front);
    Ok(())
}

/// Tells whether a list is as long as these bytes, and its copy equals it and gives them back.
fn is_list_copied(list: &ByteList, bytes: &[u8]) -> Result<bool, AllocError> {
    let copy = list.clone()?;
    let is_long = list.len() == bytes.len() && list.is_empty() == bytes.is_empty();
    let is_same = copy == *list;
    Ok(has_bytes(ByteList::from_vec(copy.into_vec()), bytes) && is_long && is_same)
}

/// Tells whether a list and its copy have the bytes that it was made of, and give them back.
fn keeps_bytes(alloc: Global, bytes: &[u8]) -> Result<bool, AllocError> {
    let list = ByteList::from_slice(alloc, bytes)?;
    let is_copied = is_list_copied(&list, bytes);
    drop(list);
    is_copied
}

/// Tells whether the copy of an act equals it.
fn is_copied(act: &Act) -> Result<bool, AllocError> {
    let copy = act.clone()?;
    let is_same = copy == *act;
    drop(copy);
    Ok(is_same)
}

/// Tells whether the copy of an act of these bytes equals it.
fn is_raw_copied(alloc: Global, bytes: &[u8]) -> Result<bool, AllocError> {
    let list = ByteList::from_slice(alloc, bytes)?;
    let act = Act::Stim(WorldStim::Of(1, Stimulus::Raw(list)));
    let is_copied = is_copied(&act);
    drop(act);
    is_copied
}

#[test]
fn lists(rt: HostRuntime) -> Result<(), Fail> {
    assert!(rt; ByteList::new(rt.alloc()).is_empty());
    assert!(rt; keeps_bytes(rt.alloc(), b"abc")?);
    assert!(rt; is_raw_copied(rt.alloc(), b"abc")?);
    Ok(())
}
