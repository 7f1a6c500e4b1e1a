//! The desk in a real folder, and over streams that take little or are interrupted.
use super::FileDesk;
use std::fs::Files;
use std::io::{self, Cursor, Write};
use std::process::{self, Abort};
use std::test::Fail;
use std::{env, fs};
use testgen_engine::testgen;
use tg_base::{Desk, DeskFault, Out};

/// A source of one statement, and what is written of it.
const SOURCE: &str =
    "#include <core.p4>\n#include <v1model.p4>\nstruct H { }\nstruct M { }\nparser P(packet_in b, out H h, inout M m, inout standard_metadata_t s) {\n  state start { transition accept; }\n}\ncontrol V(inout H h, inout M m) { apply { } }\ncontrol I(inout H h, inout M m, inout standard_metadata_t s) {\n  apply {\n    s.egress_spec = 3;\n  }\n}\ncontrol E(inout H h, inout M m, inout standard_metadata_t s) { apply { } }\ncontrol C(inout H h, inout M m) { apply { } }\ncontrol D(packet_out b, in H h) { apply { } }\nV1Switch(P(), V(), I(), E(), C(), D()) main;\n";

const TEST: &str =
    "# test 1 covers 1\npacket 0 0000000000000000000000000000\nexpect 3 0000000000000000000000000000$\n";

const REPORT: &str =
    "bounds bytes 128 steps 12 entries 1 budget 2000\n1 11:5 covered 1\nstatements 1 covered 1 unreachable 0 unsteady 0 undecided 0 tests 1 nibbles 0\n";

/// Makes a folder with a source, an older test and a folder in place of a test, and goes there.
fn enter_new_folder(rt: HostRuntime) -> Result<String, Fail> {
    let temp = env::temp_dir(&rt)?;
    let (temp, id) = (temp.as_str(), process::id(rt.process()));
    let folder = format!(in rt.alloc(); "{temp}/testgen_desk_{id}")?;
    fs::create_dir(&rt, folder.as_str())?;
    env::set_current_dir(&rt, folder.as_str())?;
    fs::write(&rt, "a.p4", "source")?;
    fs::write(&rt, "b.p4", SOURCE)?;
    fs::write(&rt, "test_2.stf", "an older test")?;
    fs::create_dir(&rt, "test_3.stf")?;
    Ok(folder)
}

fn reads_the_source<D: Desk>(rt: &impl Abort, desk: &mut D) -> Result<(), Fail> {
    desk.open("a.p4")?;
    let mut into = *b"....";
    let first = desk.read(&mut into)?;
    assert_eq!(rt; first, 4);
    assert_eq!(rt; into.as_slice(), b"sour".as_slice());
    let second = desk.read(&mut into)?;
    assert_eq!(rt; second, 2);
    assert_eq!(rt; into.as_slice(), b"ceur".as_slice());
    let end = desk.read(&mut into)?;
    assert_eq!(rt; end, 0);
    Ok(())
}

fn fails_to_read<D: Desk>(rt: &impl Abort, desk: &mut D) -> Result<(), Fail> {
    let missing = desk.open("missing.p4");
    assert_eq!(rt; missing, Err(DeskFault::Failed));
    desk.open(".")?;
    let of_folder = desk.read(&mut [0]);
    assert_eq!(rt; of_folder, Err(DeskFault::Failed));
    Ok(())
}

fn writes_each_output<D: Desk>(rt: &impl Abort, desk: &mut D) -> Result<(), Fail> {
    for (out, piece, want) in [
        (Out::Report, b"one", Ok(3)),
        (Out::Test(1), b"two", Ok(3)),
        (Out::Test(1), b"2nd", Ok(3)),
        (Out::Proofs, b"3rd", Ok(3)),
        (Out::Test(2), b"4th", Ok(3)),
        (Out::Notes, b"5th", Ok(3)),
        (Out::Test(3), b"6th", Err(DeskFault::Failed)),
        (Out::Test(1), b"7th", Ok(3)),
        (Out::Proofs, b"8th", Ok(3)),
        (Out::Report, b"9th", Ok(3)),
    ] {
        let answer = desk.write(out, piece);
        assert_eq!(rt; answer, want, "{out:?}");
    }
    Ok(())
}

fn files_hold_what_was_written(rt: &(impl Files + AllocGlobal + Abort)) -> Result<(), Fail> {
    for (name, want) in [
        ("a.p4", "source"),
        ("test_1.stf", "two2nd7th"),
        ("test_2.stf", "4th"),
        ("testgen.proofs", "3rd8th"),
    ] {
        let held = fs::read_to_string(rt, name)?;
        assert_eq!(rt; held.as_str(), want, "{name}");
    }
    Ok(())
}

/// A run over the folder as it then stands. Its test is made anew.
fn generates<D: Desk>(rt: &(impl Files + AllocGlobal + Abort), desk: &mut D) -> Result<(), Fail> {
    let alloc = rt.alloc();
    let words = vec![in alloc;
        String::from_str(alloc, "gen")?,
        String::from_str(alloc, "b.p4")?,
    ]?;
    let status = testgen(alloc, words.as_slice(), desk);
    assert_eq!(rt; status, 0);
    let test = fs::read_to_string(rt, "test_1.stf")?;
    assert_eq!(rt; test.as_str(), TEST);
    Ok(())
}

#[test]
fn keeps_files_of_a_folder(rt: HostRuntime) -> Result<(), Fail> {
    let alloc = rt.alloc();
    let folder = enter_new_folder(rt)?;
    let mut desk = FileDesk::new(alloc, rt, Vec::new(alloc), Vec::new(alloc));
    reads_the_source(&rt, &mut desk)?;
    fails_to_read(&rt, &mut desk)?;
    writes_each_output(&rt, &mut desk)?;
    files_hold_what_was_written(&rt)?;
    assert_eq!(rt; desk.report.as_slice(), b"one9th".as_slice());
    assert_eq!(rt; desk.notes.as_slice(), b"5th".as_slice());
    let mut desk = FileDesk::new(alloc, rt, Vec::new(alloc), Vec::new(alloc));
    generates(&rt, &mut desk)?;
    assert_eq!(rt; desk.report.as_slice(), REPORT.as_bytes());
    assert_eq!(rt; desk.notes.len(), 0);
    fs::remove_dir_all(&rt, folder.as_str())?;
    Ok(())
}

/// A stream that is interrupted at first.
#[derive(Drop)]
struct Interrupted {
    times_left: u8,
}

impl Write for Interrupted {
    fn write(&mut self, buf: &[u8]) -> io::Result<usize> {
        if self.times_left == 0 {
            return Ok(buf.len());
        }
        self.times_left -= 1;
        Err(io::Error::from(io::ErrorKind::Interrupted))
    }

    fn flush(&mut self) -> io::Result<()> {
        Ok(())
    }
}

#[test]
fn counts_what_a_stream_refuses(rt: HostRuntime) -> Result<(), Fail> {
    let short = Cursor::new([0; 2]);
    let mut desk = FileDesk::new(rt.alloc(), rt, short, Interrupted { times_left: 3 });
    for (out, want, faults) in [
        (Out::Report, Ok(2), 0),
        (Out::Notes, Ok(3), 0),
        (Out::Report, Err(DeskFault::Failed), 1),
        (Out::Report, Err(DeskFault::Failed), 2),
    ] {
        let taken = desk.write(out, b"abc");
        assert_eq!(rt; taken, want, "{out:?}");
        assert_eq!(rt; desk.history.write_faults, faults, "{out:?}");
    }
    Ok(())
}
