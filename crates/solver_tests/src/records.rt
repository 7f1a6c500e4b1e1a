//! `proof_stream`: texts of records and of none.

use proof_stream::{HexValue, Kind, ProofFault, Record, read_record, write_record};
use std::alloc::{AllocError, Global};
use std::process::Abort;
use std::test::Fail;

/// More bytes than a text of a test has.
const LIMIT: usize = 1_000;

/// The record of four clauses that no choice of two bits satisfies.
const EXAMPLE: &str =
    "record reach 1\nvar input 0\nvar input 1\nclause 1 2 0\nclause -1 2 0\nclause 1 -2 0\n\
    clause -1 -2 0\ncube -2 0\nstep 2 0 1 2 0\nstep 0 6 3 4 0\nunsat\n";

/// Texts of records: both forms, every kind of line, and both ends of each number's range.
const RECORDS: [&str; 10] = [
    EXAMPLE,
    "record reach 0\nvar input 0\nspent\n",
    "record steady 4294967295\nvar input 4294967295\nunsat\n",
    "record break 1\nat 0\nvar read 0 4294967295\nsat 1\n",
    "record nibble 4294967295 0\nat 10\nvar read 4294967295 0\nvar input 7\nsat 01\n",
    "record reach 1\nvar input 0\nclause 0\nclause 4294967295 -1 0\nunsat\n",
    "record reach 1\nvar input 0\nstep 0 0\nstep -4294967295 0 4294967295 1 0\ncube 0\nspent\n",
    "record reach 1\nvar input 0\ncube 2 -2 2 0\nunsat\n",
    "broken 0\nat 1\nruns\nbreaks\n",
    "broken 4294967295\nat 0011\nruns 0x0 0xf\nbreaks 0x00000000000000000000000000000000 0xffffffffffffffffffffffffffffffff 0x09af\n",
];

/// Texts that are no record's, and the first line that cannot stand there.
const FAULTS: [(&str, u32); 44] = [
    ("", 1),
    ("\n", 1),
    ("record reach 1", 1),
    ("record reach 1\n", 2),
    ("record  reach 1\n", 1),
    ("record reach 1 \n", 1),
    (" record reach 1\n", 1),
    ("record reach 1\r\n", 1),
    ("record reach 01\n", 1),
    ("record reach +1\n", 1),
    ("record reach -1\n", 1),
    ("record reach\n", 1),
    ("record reach 4294967296\n", 1),
    ("record reach 99999999999999999999\n", 1),
    ("record Reach 1\n", 1),
    ("record reach 1 2\n", 1),
    ("record nibble 1\n", 1),
    ("record broken 1\n", 1),
    ("reach 1\n", 1),
    ("record reach 1\nat 1\n", 2),
    ("record steady 1\nat 1\n", 2),
    ("record break 1\nvar input 0\n", 2),
    ("record break 1\nat\n", 2),
    ("record break 1\nat \n", 2),
    ("record break 1\nat 2\n", 2),
    ("record break 1\nat 1 0\n", 2),
    ("record break 1\nat 1\nat 1\n", 3),
    ("record reach 1\nclause 0\n", 2),
    ("record reach 1\nunsat\n", 2),
    ("record reach 1\nvar input 0\nat 1\n", 3),
    ("record reach 1\nvar input 0\nclause 1 -1 0\n", 3),
    ("record reach 1\nvar input 0\nclause 1\n", 3),
    ("record reach 1\nvar input 0\nclause 1 0 0\n", 3),
    ("record reach 1\nvar input 0\nclause -0 0\n", 3),
    ("record reach 1\nvar input 0\nclause --1 0\n", 3),
    ("record reach 1\nvar input 0\nstep 1 0\n", 3),
    ("record reach 1\nvar input 0\nstep 1 0 -1 0\n", 3),
    ("record reach 1\nvar input 0\ncube 1 0\nclause 1 0\n", 4),
    ("record reach 1\nvar input 0\nclause 1 0\nvar input 1\n", 4),
    ("record reach 1\nvar input 0\nsat 11\n", 3),
    ("record reach 1\nvar input 0\nunsat\n\n", 4),
    ("broken 1\nat 1\nruns 0x\nbreaks\n", 3),
    ("broken 1\nat 1\nruns 0xA\nbreaks\n", 3),
    (
        "broken 1\nat 1\nruns 0x000000000000000000000000000000000\nbreaks\n",
        3,
    ),
];

/// The line of the fault, where there is one.
fn fault_line(alloc: Global, text: &[u8]) -> Option<u32> {
    if text.len() > LIMIT {
        return None;
    }
    match read_record(alloc, text) {
        Err(ProofFault::Line(n)) => Some(n),
        _ => None,
    }
}

/// The text of the record of the text.
fn again(alloc: Global, text: &str) -> Result<Option<String>, AllocError> {
    if text.len() > LIMIT {
        return Ok(None);
    }
    match read_record(alloc, text.as_bytes()) {
        Ok(r) => Ok(Some(write_record(alloc, &r)?)),
        Err(_) => Ok(None),
    }
}

fn count_lines(text: &[u8]) -> u32 {
    let mut lines: u32 = 0;
    for byte in text {
        if *byte == b'\n' {
            lines = lines.saturating_add(1);
        }
    }
    lines
}

/// Cut after any byte, a record's text has its fault at the line that is cut.
fn assert_fronts_are_faulty<R: Abort + AllocGlobal>(rt: &R, text: &str) {
    let bytes = text.as_bytes();
    for len in 0..bytes.len() {
        let front = &bytes[..len];
        let line = count_lines(front).saturating_add(1);
        assert_eq!(rt;
            fault_line(rt.alloc(), front),
            Some(line),
            "{text} to byte {len}"
        );
    }
}

#[test]
fn texts_of_records(rt: HostRuntime) -> Result<(), Fail> {
    for text in RECORDS {
        let written = again(rt.alloc(), text)?.ok_or("it is the text of a record")?;
        assert_eq!(rt; written.as_str(), text);
        assert_fronts_are_faulty(&rt, text);
    }
    Ok(())
}

#[test]
fn texts_of_no_record(rt: HostRuntime) {
    for (text, line) in FAULTS {
        assert_eq!(rt;
            fault_line(rt.alloc(), text.as_bytes()),
            Some(line),
            "{text}"
        );
    }
}

#[test]
fn values_of_a_record(rt: HostRuntime) {
    assert!(rt; HexValue::new(1, 15).is_some() && HexValue::new(1, 16).is_none());
    assert!(rt; HexValue::new(32, u128::MAX).is_some() && HexValue::new(0, 0).is_none());
    let text = "record nibble 4294967295 0\nat 10\nvar read 4294967295 0\nvar input 7\nsat 01\n";
    let found = read_record(rt.alloc(), text.as_bytes());
    assert!(rt;
        matches!(
            found,
            Ok(Record::Asked {
                kind: Kind::Nibble(u32::MAX, 0),
                ..
            })
        )
    );
}
