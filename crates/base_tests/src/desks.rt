//! The desks in memory, read in pieces of two bytes and written letter by letter, and the codes.
use std::alloc::{AllocError, Global};
use std::test::Fail;
use tg_base::{CalmDesk, Code, Desk, DeskFault, MemDesk, Out};

/// The number of an open or a read that fails, the name asked for, and the bytes that are read.
const READS: [(u64, &str, Option<&str>); 12] = [
    (0, "a.p4", Some("xyz")),
    (1, "a.p4", None),
    (2, "a.p4", None),
    (3, "a.p4", None),
    (4, "a.p4", None),
    (5, "a.p4", Some("xyz")),
    (9, "a.p4", Some("xyz")),
    (0, "empty", Some("")),
    (2, "empty", None),
    (3, "empty", Some("")),
    (0, "b.p4", None),
    (0, "", None),
];

/// A letter for each write, in turn.
const LETTERS: [(Out, &str); 7] = [
    (Out::Report, "a"),
    (Out::Test(2), "b"),
    (Out::Notes, "c"),
    (Out::Test(1), "d"),
    (Out::Proofs, "e"),
    (Out::Test(2), "f"),
    (Out::Report, "g"),
];

/// The number of a write that fails, how many letters are taken before, and what the outputs then hold: the report,
/// the log, the notes and the first three tests.
const WRITES: [(u64, usize, [&str; 6]); 6] = [
    (0, 7, ["ag", "e", "c", "d", "bf", ""]),
    (1, 0, ["", "", "", "", "", ""]),
    (2, 1, ["a", "", "", "", "", ""]),
    (5, 4, ["a", "", "c", "d", "b", ""]),
    (7, 6, ["a", "e", "c", "d", "bf", ""]),
    (8, 7, ["ag", "e", "c", "d", "bf", ""]),
];

const OUTS: [Out; 6] = [
    Out::Report,
    Out::Proofs,
    Out::Notes,
    Out::Test(1),
    Out::Test(2),
    Out::Test(3),
];

const CODES: [(Code, &str); 12] = [
    (Code::NotText, "10 NotText"),
    (Code::Lex, "11 Lex"),
    (Code::Directive, "12 Directive"),
    (Code::Syntax, "13 Syntax"),
    (Code::TooDeep, "14 TooDeep"),
    (Code::Limit, "15 Limit"),
    (Code::Name, "16 Name"),
    (Code::Constant, "17 Constant"),
    (Code::Typing, "18 Type"),
    (Code::Unsupported, "19 Unsupported"),
    (Code::Package, "20 Package"),
    (Code::NotBuilt, "21 NotBuilt"),
];

/// Reads a file in pieces of two bytes to its end.
fn read_by_twos<D: Desk>(alloc: Global, desk: &mut D, name: &str) -> Result<Vec<u8>, DeskFault> {
    let mut bytes = Vec::new(alloc);
    desk.open(name)?;
    for _piece in 0..9 {
        let mut two = [0; 2];
        let count = desk.read(&mut two)?;
        if count == 0 {
            break;
        }
        bytes.extend_from_slice(&two[..count])?;
    }
    Ok(bytes)
}

/// Writes the letters until a write fails, and counts those that were taken.
fn write_letters<D: Desk>(desk: &mut D) -> usize {
    let mut taken = 0usize;
    for (out, letter) in LETTERS {
        match desk.write(out, letter.as_bytes()) {
            Ok(count) => taken = taken.saturating_add(count),
            Err(_) => break,
        }
    }
    taken
}

/// Two files of one name, an empty one, and what is to fail.
fn mem_desk(alloc: Global, failing_read: u64, failing_write: u64) -> Result<MemDesk, AllocError> {
    let files = vec![in alloc;
        (String::from_str(alloc, "a.p4")?, b"xyz".to_vec(alloc)?),
        (String::from_str(alloc, "empty")?, Vec::new(alloc)),
        (String::from_str(alloc, "a.p4")?, b"second".to_vec(alloc)?),
    ]?;
    let reads = vec![in alloc; 19, failing_read]?;
    let writes = vec![in alloc; 19, failing_write]?;
    Ok(MemDesk::new(alloc, files, reads, writes))
}

fn calm_desk(alloc: Global) -> Result<CalmDesk, AllocError> {
    let name = String::from_str(alloc, "a.p4")?;
    Ok(CalmDesk::new(
        alloc,
        name,
        b"source".to_vec(alloc)?,
        b"test".to_vec(alloc)?,
    ))
}

#[test]
fn reads_whole_files_or_fails(rt: HostRuntime) -> Result<(), Fail> {
    let alloc = rt.alloc();
    for (failing, name, want) in READS {
        let mut desk = mem_desk(alloc, failing, 0)?;
        match (read_by_twos(alloc, &mut desk, name), want) {
            (Ok(got), Some(want)) => {
                assert_eq!(rt;
                    got.as_slice(),
                    want.as_bytes(),
                    "{name}, read {failing} fails"
                )
            }
            (got, want) => {
                assert_eq!(rt;
                    got.is_err(),
                    want.is_none(),
                    "{name}, read {failing} fails"
                )
            }
        }
    }
    let mut calm = calm_desk(alloc)?;
    for (name, want) in [("a.p4", "source"), ("b.p4", "test"), ("", "test")] {
        let got = read_by_twos(alloc, &mut calm, name)?;
        assert_eq!(rt; got.as_slice(), want.as_bytes(), "{name}");
    }
    for (code, want) in CODES {
        let number = code.number();
        let printed = format!(in alloc; "{number} {code}")?;
        assert_eq!(rt; printed.as_str(), want);
    }
    Ok(())
}

#[test]
fn keeps_outputs_apart(rt: HostRuntime) -> Result<(), Fail> {
    let alloc = rt.alloc();
    for (failing, want, outputs) in WRITES {
        let mut desk = mem_desk(alloc, 0, failing)?;
        assert_eq!(rt; write_letters(&mut desk), want, "write {failing} fails");
        for (out, want) in OUTS.into_iter().zip(outputs) {
            assert_eq!(rt;
                desk.written(out),
                want.as_bytes(),
                "{out:?}, write {failing} fails"
            );
        }
    }
    let mut calm = calm_desk(alloc)?;
    assert_eq!(rt; write_letters(&mut calm), 7);
    for (out, want) in OUTS.into_iter().zip(WRITES[0].2) {
        assert_eq!(rt; calm.written(out), want.as_bytes(), "{out:?}");
    }
    Ok(())
}
