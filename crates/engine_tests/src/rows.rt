//! Command lines over desks in memory, with their status and what each output then holds.
use crate::sparing_desk::SparingDesk;
use std::alloc::{AllocError, Global};
use std::process::Abort;
use std::test::Fail;
use testgen_engine::testgen;
use tg_base::{MemDesk, Out};

/// The skeleton before and after its statements.
const HEAD: &str =
    "#include <core.p4>\n#include <v1model.p4>\nstruct H { }\nstruct M { }\nparser P(packet_in b, out H h, inout M m, inout standard_metadata_t s) {\n  state start { transition accept; }\n}\ncontrol V(inout H h, inout M m) { apply { } }\ncontrol I(inout H h, inout M m, inout standard_metadata_t s) {\n  apply {\n";

const TAIL: &str =
    "  }\n}\ncontrol E(inout H h, inout M m, inout standard_metadata_t s) { apply { } }\ncontrol C(inout H h, inout M m) { apply { } }\ncontrol D(packet_out b, in H h) { apply { } }\nV1Switch(P(), V(), I(), E(), C(), D()) main;\n";

const BOUNDS: &str = "bounds bytes 128 steps 12 entries 1 budget 2000\n";

const NOT_BUILT: &str = "refused 21 NotBuilt at 1:1\n";

const NOT_TEXT: &str = "refused 10 NotText at 1:1\n";

const TOO_LONG: &str = "refused 15 Limit at 1:1\n";

const READ_FAULT: &str = "read fault\n";

const USAGE: &str = "usage: gen NAME | replay NAME TEST FILL | load NUMBER SIZE\n";

/// A job that is done: the statements of the skeleton, the report after its line of bounds, and the test.
struct Job {
    statements: &'static str,
    report: &'static str,
    test: &'static str,
}

const JOBS: [Job; 10] = [
    // One assignment.
    Job {
        statements: "    s.egress_spec = 3;\n",
        report: "1 11:5 covered 1\nstatements 1 covered 1 unreachable 0 unsteady 0 undecided 0 tests 1 nibbles 0\n",
        test: "# test 1 covers 1\npacket 0 0000000000000000000000000000\nexpect 3 0000000000000000000000000000$\n",
    },
    // Two statements in one test.
    Job {
        statements: "    s.egress_spec = 3;\n    mark_to_drop(s);\n",
        report: "1 11:5 covered 1\n2 12:5 covered 1\nstatements 2 covered 2 unreachable 0 unsteady 0 undecided 0 tests 1 nibbles 0\n",
        test: "# test 1 covers 1 2\npacket 0 0000000000000000000000000000\n",
    },
    // The drop first.
    Job {
        statements: "    mark_to_drop(s);\n    s.egress_spec = 3;\n",
        report: "1 11:5 covered 1\n2 12:5 covered 1\nstatements 2 covered 2 unreachable 0 unsteady 0 undecided 0 tests 1 nibbles 0\n",
        test: "# test 1 covers 1 2\npacket 0 0000000000000000000000000000\nexpect 3 0000000000000000000000000000$\n",
    },
    // No statement.
    Job {
        statements: "",
        report: "statements 0 covered 0 unreachable 0 unsteady 0 undecided 0 tests 0 nibbles 0\n",
        test: "",
    },
    // The drop port.
    Job {
        statements: "    s.egress_spec = 511;\n",
        report: "1 11:5 covered 1\nstatements 1 covered 1 unreachable 0 unsteady 0 undecided 0 tests 1 nibbles 0\n",
        test: "# test 1 covers 1\npacket 0 0000000000000000000000000000\n",
    },
    // The least and the greatest port.
    Job {
        statements: "    s.egress_spec = 510;\n    s.egress_spec = 0;\n",
        report: "1 11:5 covered 1\n2 12:5 covered 1\nstatements 2 covered 2 unreachable 0 unsteady 0 undecided 0 tests 1 nibbles 0\n",
        test: "# test 1 covers 1 2\npacket 0 0000000000000000000000000000\nexpect 0 0000000000000000000000000000$\n",
    },
    Job {
        statements: "    s.egress_spec = 0;\n    s.egress_spec = 510;\n",
        report: "1 11:5 covered 1\n2 12:5 covered 1\nstatements 2 covered 2 unreachable 0 unsteady 0 undecided 0 tests 1 nibbles 0\n",
        test: "# test 1 covers 1 2\npacket 0 0000000000000000000000000000\nexpect 510 0000000000000000000000000000$\n",
    },
    // Sixteen lines, a drop last.
    Job {
        statements: "    s.egress_spec = 0;\n    s.egress_spec = 510;\n    s.egress_spec = 511;\n    mark_to_drop(s);\n    s.egress_spec = 4;\n    s.egress_spec = 5;\n    s.egress_spec = 6;\n    s.egress_spec = 7;\n    s.egress_spec = 8;\n    s.egress_spec = 9;\n    s.egress_spec = 10;\n    s.egress_spec = 11;\n    s.egress_spec = 12;\n    s.egress_spec = 13;\n    s.egress_spec = 14;\n    mark_to_drop(s);\n",
        report: "1 11:5 covered 1\n2 12:5 covered 1\n3 13:5 covered 1\n4 14:5 covered 1\n5 15:5 covered 1\n6 16:5 covered 1\n7 17:5 covered 1\n8 18:5 covered 1\n9 19:5 covered 1\n10 20:5 covered 1\n11 21:5 covered 1\n12 22:5 covered 1\n13 23:5 covered 1\n14 24:5 covered 1\n15 25:5 covered 1\n16 26:5 covered 1\nstatements 16 covered 16 unreachable 0 unsteady 0 undecided 0 tests 1 nibbles 0\n",
        test: "# test 1 covers 1 2 3 4 5 6 7 8 9 10 11 12 13 14 15 16\npacket 0 0000000000000000000000000000\n",
    },
    // Blanks, comments, two statements in a line, macros, a part that is not taken, an annotation that is dropped.
    Job {
        statements: "\t/* 1 */ s . egress_spec=3;mark_to_drop ( s\r\n);\n",
        report: "1 11:10 covered 1\n2 11:28 covered 1\nstatements 2 covered 2 unreachable 0 unsteady 0 undecided 0 tests 1 nibbles 0\n",
        test: "# test 1 covers 1 2\npacket 0 0000000000000000000000000000\n",
    },
    Job {
        statements: "#define DROP mark_to_drop(s)\n#ifdef ABSENT\n    s.nothing = 1;\n#else\n    DROP; // \u{e9}\n#endif\n#define PORT 3\n    @hidden s.egress_spec = PORT;\n",
        report: "1 15:5 covered 1\n2 18:13 covered 1\nstatements 2 covered 2 unreachable 0 unsteady 0 undecided 0 tests 1 nibbles 0\n",
        test: "# test 1 covers 1 2\npacket 0 0000000000000000000000000000\nexpect 3 0000000000000000000000000000$\n",
    },
];

/// Statements with which the skeleton is refused, and the note.
const REFUSED: [(&str, &str); 19] = [
    // Tokens of no program that is built.
    ("    s.egress_spec = 512;\n", NOT_BUILT),
    ("    s.egress_spec = 03;\n", NOT_BUILT),
    ("    s.egress_spec = 0x3;\n", NOT_BUILT),
    ("    s.egress_spec = 9w3;\n", NOT_BUILT),
    ("    s.egress_spec = 1000;\n", NOT_BUILT),
    ("    @name(\"x\") mark_to_drop(s);\n", NOT_BUILT),
    (
        "    s.egress_spec = ((((((((((((((((((((((((((((((((((((((((((((((((((((((((((((((3))))))))))))))))))))))))))))))))))))))))))))))))))))))))))))));\n",
        NOT_BUILT,
    ),
    (
        "    mark_to_drop(s);\n    mark_to_drop(s);\n    mark_to_drop(s);\n    mark_to_drop(s);\n    mark_to_drop(s);\n    mark_to_drop(s);\n    mark_to_drop(s);\n    mark_to_drop(s);\n    mark_to_drop(s);\n    mark_to_drop(s);\n    mark_to_drop(s);\n    mark_to_drop(s);\n    mark_to_drop(s);\n    mark_to_drop(s);\n    mark_to_drop(s);\n    mark_to_drop(s);\n    mark_to_drop(s);\n",
        NOT_BUILT,
    ),
    // Tokens without a derivation: no operand, no statement, and no end of one; the place is where no list goes on.
    ("    s.egress_spec = ;\n", "refused 13 Syntax at 11:21\n"),
    ("    \"mark_to_drop(s);\"\n", "refused 13 Syntax at 11:5\n"),
    ("    s.egress_spec = 3\n", "refused 13 Syntax at 12:3\n"),
    // Two braces and 62 brackets are open around the number above; here one more is. It decides over what stops behind it.
    (
        "    s.egress_spec = (((((((((((((((((((((((((((((((((((((((((((((((((((((((((((((((3)))))))))))))))))))))))))))))))))))))))))))))))))))))))))))))));\n",
        "refused 14 TooDeep at 11:84\n",
    ),
    (
        "    s.egress_spec = (((((((((((((((((((((((((((((((((((((((((((((((((((((((((((((((3;\n",
        "refused 14 TooDeep at 11:84\n",
    ),
    // No tokens: a byte that is no text, one that begins no word, a comment that is not ended, a number that a letter
    // follows, a directive of another kind, and a condition that is not ended.
    ("    s.egress_spec = 3 $;\n", "refused 11 Lex at 11:23\n"),
    (
        "    s.egress_spec = 3;\n    /* mark_to_drop(s);\n",
        "refused 11 Lex at 12:5\n",
    ),
    ("    s.egress_spec = 3a;\n", "refused 11 Lex at 11:21\n"),
    (
        "    s.egress_spec = 3;\n  }\n#if 1\n",
        "refused 12 Directive at 13:1\n",
    ),
    (
        "    s.egress_spec = 3;\n#ifdef A\n",
        "refused 12 Directive at 12:1\n",
    ),
    ("    // \u{e9}\n    \u{e9}\n", "refused 11 Lex at 12:5\n"),
];

/// The bytes of the file `a.p4`.
#[derive(Clone, Copy)]
enum Source {
    Skeleton(&'static str),
    Blanks(usize),
    NotText,
}

/// A call that writes nothing but notes: the command line, the file, the read that fails, the status and the notes.
const NOTED: [(&str, Source, u64, u8, &str); 18] = [
    // Words that ask for nothing. No file is opened.
    ("", Source::Skeleton(""), 1, 1, USAGE),
    ("gen", Source::Skeleton(""), 1, 1, USAGE),
    ("gen ", Source::Skeleton(""), 1, 1, USAGE),
    ("gen --bytes", Source::Skeleton(""), 1, 1, USAGE),
    ("gen a.p4 --bytes 0", Source::Skeleton(""), 1, 1, USAGE),
    ("Gen a.p4", Source::Skeleton(""), 1, 1, USAGE),
    (
        "replay a.p4 test_1.stf zeros",
        Source::Skeleton(""),
        1,
        1,
        USAGE,
    ),
    ("load 7 200", Source::Skeleton(""), 1, 1, USAGE),
    // Other sources.
    ("gen a.p4", Source::Blanks(0), 0, 2, NOT_BUILT),
    ("gen a.p4", Source::NotText, 0, 2, NOT_TEXT),
    ("gen a.p4", Source::Blanks(262_144), 0, 2, NOT_BUILT),
    ("gen a.p4", Source::Blanks(262_145), 0, 2, TOO_LONG),
    ("gen a.p4", Source::Blanks(300_000), 0, 2, TOO_LONG),
    // Of a long file 262,145 bytes are taken, by an open and a read that fills the buffer: the read past it is not made.
    ("gen a.p4", Source::Blanks(300_000), 2, 4, READ_FAULT),
    ("gen a.p4", Source::Blanks(300_000), 3, 2, TOO_LONG),
    // A missing file, and a fault at the open and at each read.
    ("gen b.p4", Source::Skeleton(""), 0, 4, READ_FAULT),
    ("gen a.p4", Source::Skeleton(""), 1, 4, READ_FAULT),
    ("gen a.p4", Source::Skeleton(""), 3, 4, READ_FAULT),
];

/// The first job's run writes the test and then the report. The write that fails, the status, and how many of the two
/// are then there.
const FAILING: [(u64, u8, u8); 4] = [(0, 0, 2), (1, 5, 0), (2, 5, 1), (3, 0, 2)];

impl Source {
    fn bytes(self, alloc: Global) -> Result<Vec<u8>, AllocError> {
        match self {
            Source::Skeleton(statements) => {
                format!(in alloc; "{HEAD}{statements}{TAIL}")?
                    .as_bytes()
                    .to_vec(alloc)
            }
            Source::Blanks(count) => vec![in alloc; b' '; count],
            Source::NotText => b"\xff".to_vec(alloc),
        }
    }
}

/// The status of a command line, its words parted by blanks, over a desk with one file at which these calls fail.
fn run(
    alloc: Global,
    line: &str,
    source: Source,
    failing: (u64, u64),
) -> Result<(u8, MemDesk), AllocError> {
    let files = vec![in alloc; (String::from_str(alloc, "a.p4")?, source.bytes(alloc)?)]?;
    let reads = vec![in alloc; failing.0]?;
    let writes = vec![in alloc; failing.1]?;
    let mut desk = MemDesk::new(alloc, files, reads, writes);
    let mut words = Vec::new(alloc);
    for word in line.split(' ') {
        words.push(String::from_str(alloc, word)?)?;
    }
    let status = testgen(alloc, words.as_slice(), &mut desk);
    Ok((status, desk))
}

/// Asserts that the desk holds this report, this test and these notes, and nothing else.
fn assert_holds(rt: &impl Abort, desk: &MemDesk, holds: [&str; 3], row: &str) {
    for (out, want) in [
        (Out::Report, holds[0]),
        (Out::Test(1), holds[1]),
        (Out::Notes, holds[2]),
        (Out::Proofs, ""),
        (Out::Test(0), ""),
        (Out::Test(2), ""),
    ] {
        assert_eq!(rt; desk.written(out), want.as_bytes(), "{out:?} of {row}");
    }
}

#[test]
fn jobs_are_done_and_others_noted(rt: HostRuntime) -> Result<(), Fail> {
    let alloc = rt.alloc();
    for job in &JOBS {
        let source = Source::Skeleton(job.statements);
        let (status, desk) = run(alloc, "gen a.p4", source, (0, 0))?;
        assert_eq!(rt; status, 0, "{}", job.statements);
        let report = format!(in alloc; "{BOUNDS}{}", job.report)?;
        assert_holds(&rt, &desk, [report.as_str(), job.test, ""], job.statements);
    }
    for (statements, note) in REFUSED {
        let (status, desk) = run(alloc, "gen a.p4", Source::Skeleton(statements), (0, 0))?;
        assert_eq!(rt; status, 2, "{statements}");
        assert_holds(&rt, &desk, ["", "", note], statements);
    }
    for (line, source, failing, want, notes) in NOTED {
        let (status, desk) = run(alloc, line, source, (failing, 0))?;
        assert_eq!(rt; status, want, "{line}, read {failing} fails");
        assert_holds(&rt, &desk, ["", "", notes], line);
    }
    Ok(())
}

#[test]
fn a_write_that_fails_ends_the_call(rt: HostRuntime) -> Result<(), Fail> {
    let alloc = rt.alloc();
    let source = Source::Skeleton(JOBS[0].statements);
    let report = format!(in alloc; "{BOUNDS}{}", JOBS[0].report)?;
    for (failing, want, written) in FAILING {
        let (status, desk) = run(alloc, "gen a.p4", source, (0, failing))?;
        assert_eq!(rt; status, want, "write {failing} fails");
        let test = if written > 0 { JOBS[0].test } else { "" };
        let report = if written > 1 { report.as_str() } else { "" };
        assert_holds(&rt, &desk, [report, test, ""], "a write that fails");
    }
    // The third write fails, and would succeed if it were tried again: a test of three pieces has two.
    let mut desk = SparingDesk::new(alloc, source.bytes(alloc)?, 3)?;
    let words = vec![in alloc;
        String::from_str(alloc, "gen")?,
        String::from_str(alloc, "a.p4")?,
    ]?;
    assert_eq!(rt; testgen(alloc, words.as_slice(), &mut desk), 5);
    assert_holds(
        &rt,
        desk.desk(),
        ["", "# test 1 covers 1\npacket 0 00000", ""],
        "a sparing desk",
    );
    // No write fails.
    let mut desk = SparingDesk::new(alloc, source.bytes(alloc)?, 0)?;
    assert_eq!(rt; testgen(alloc, words.as_slice(), &mut desk), 0);
    assert_holds(
        &rt,
        desk.desk(),
        [report.as_str(), JOBS[0].test, ""],
        "a sparing desk",
    );
    Ok(())
}
