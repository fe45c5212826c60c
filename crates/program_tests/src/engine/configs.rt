//! The bytes of CONFIG, from sources that return few at a time or fail.
use crate::devices::TestReader;
use crate::engine::tries::one_is_as_usual;
use cli_engine::{ConfigFault, Input, LONGEST_CONFIG_READ, Source, read_config};
use std::alloc::{AllocError, Global};
use std::io::ErrorKind;
use std::process::Abort;
use std::test::Fail;

// Returns this number of bytes, of which neighbours differ.
fn bytes_of(alloc: Global, length: usize) -> Result<Vec<u8>, AllocError> {
    let mut bytes = Vec::new(alloc);
    for i in 0..length {
        bytes.push((i % 251) as u8)?;
    }
    Ok(bytes)
}

/// Numbers of bytes, and the most bytes that a read returns.
const LENGTHS: &[(usize, usize)] = &[
    (0, 70_000),
    (1, 70_000),
    (4095, 70_000),
    (4096, 70_000),
    (4097, 70_000),
    (65_535, 70_000),
    (65_536, 70_000),
    (65_537, 70_000),
    (65_538, 70_000),
    (70_000, 70_000),
    (300, 1),
    (65_537, 1),
    (65_600, 7),
    (65_600, 4095),
    (20_000, 4097),
];

// Returns whether bytes are read whole up to the bound, and no more of them.
fn is_front_read(alloc: Global, bytes: &[u8], size: usize) -> bool {
    let expected = bytes.len().min(LONGEST_CONFIG_READ);
    let mut source = Input::new(TestReader::new(bytes, size));
    let read = read_config(alloc, &mut source);
    let failed = source.failed();
    let left = source.into_inner().bytes.len();
    match read {
        Ok(text) => {
            bytes.starts_with(text.as_slice())
                && text.len() == expected
                && !failed
                && left == bytes.len() - expected
        }
        Err(_) => false,
    }
}

// Checks the first bytes of each length of a table.
fn check_lengths<R: Abort + AllocGlobal>(rt: &R, bytes: &[u8], lengths: &[(usize, usize)]) {
    for (length, size) in lengths {
        let front = &bytes[..bytes.len().min(*length)];
        assert!(rt;
            front.len() == *length && is_front_read(rt.alloc(), front, *size),
            "{length} bytes by {size}"
        );
    }
}

#[test]
fn all_bytes_are_read_up_to_the_bound(rt: HostRuntime) -> Result<(), Fail> {
    let bytes = bytes_of(rt.alloc(), 70_000)?;
    check_lengths(&rt, &bytes, LENGTHS);
    Ok(())
}

/// The number of the read that fails, and the kind of its error.
const FAILING: &[(usize, ErrorKind)] = &[
    (1, ErrorKind::Interrupted),
    (2, ErrorKind::Interrupted),
    (3, ErrorKind::Interrupted),
    (11, ErrorKind::Interrupted),
    (1, ErrorKind::Other),
];

// Returns whether a read of these bytes, a thousand at a time, fails and is the last one.
fn is_last_read(alloc: Global, bytes: &[u8], failing: usize, kind: ErrorKind) -> bool {
    let mut source = Input::new(TestReader {
        failing,
        kind,
        ..TestReader::new(bytes, 1000)
    });
    let is_unreadable = matches!(
        read_config(alloc, &mut source),
        Err(ConfigFault::Unreadable)
    );
    is_unreadable && source.failed() && source.into_inner().reads == failing
}

// Checks each read of a table.
fn check_failing<R: Abort + AllocGlobal>(rt: &R, bytes: &[u8], failing: &[(usize, ErrorKind)]) {
    for (failing, kind) in failing {
        assert!(rt;
            is_last_read(rt.alloc(), bytes, *failing, *kind),
            "read {failing}"
        );
    }
}

#[test]
fn a_read_that_fails_is_not_tried_again(rt: HostRuntime) -> Result<(), Fail> {
    let bytes = bytes_of(rt.alloc(), 10_000)?;
    check_failing(&rt, &bytes, FAILING);
    Ok(())
}

// Returns whether bytes are read whole.
fn is_read(alloc: Global, bytes: &[u8]) -> Option<bool> {
    let mut source = Input::new(TestReader::new(bytes, 70_000));
    match read_config(alloc, &mut source) {
        Ok(text) => Some(text.as_slice() == bytes),
        Err(ConfigFault::NoMemory) => None,
        Err(_) => Some(false),
    }
}

#[test]
fn refused_memory_is_told_as_such(rt: HostRuntime) {
    let bytes = [7; 9000];
    assert!(rt; one_is_as_usual(is_read(rt.alloc(), &bytes), is_read(rt.alloc(), &bytes)));
}
