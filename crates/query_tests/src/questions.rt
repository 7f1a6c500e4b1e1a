//! Outside values for `query_engine`: what each question is answered, and the whole text of the log. All texts were worked out
//! by hand from the definitions: which bits are left, a gate for each operator on bits that are not known, its clauses, and
//! the order in which propagation sets literals.

use crate::asking::told;
use proof_stream::Kind;
use std::test::Fail;

/// What is asked about, the fixed bits, the symbols of the term, the allowance, and the answer with the log.
type Row = (Kind, &'static str, &'static str, u32, &'static str);

/// Where nothing is left to ask the log stays empty.
const CONSTANTS: [Row; 6] = [
    (Kind::Reach(1), "", "1", 1, "yes \n"),
    (Kind::Reach(1), "", "0", 1, "no\n"),
    (Kind::Steady(1), "", "1!", 0, "no\n"),
    (Kind::Break(1), "11", "ab&", 0, "yes 11\n"),
    (Kind::Break(1), "10", "ab&", 1, "no\n"),
    (Kind::Nibble(1, 2), "011", "c", 1, "yes 011\n"),
];

/// One bit, or two, that decide by themselves.
const BITS: [Row; 15] = [
    (
        Kind::Reach(1),
        "",
        "a",
        1,
        "yes 1\nrecord reach 1\nvar input 0\nclause 1 0\nsat 1\n",
    ),
    (
        Kind::Steady(4294967295),
        "",
        "a!",
        1,
        "yes 0\nrecord steady 4294967295\nvar input 0\nclause -1 0\nsat 0\n",
    ),
    (
        Kind::Reach(0),
        "",
        "b",
        1,
        "yes 01\nrecord reach 0\nvar input 1\nclause 1 0\nsat 1\n",
    ),
    (
        Kind::Reach(1),
        "",
        "a",
        0,
        "spent\nrecord reach 1\nvar input 0\nclause 1 0\nspent\n",
    ),
    (
        Kind::Reach(1),
        "",
        "a1=",
        1,
        "yes 1\nrecord reach 1\nvar input 0\nclause 1 0\nsat 1\n",
    ),
    (
        Kind::Reach(1),
        "",
        "a0=",
        1,
        "yes 0\nrecord reach 1\nvar input 0\nclause -1 0\nsat 0\n",
    ),
    (
        Kind::Reach(1),
        "",
        "aa=",
        1,
        "yes 0\nrecord reach 1\nvar input 0\nsat 0\n",
    ),
    (
        Kind::Reach(1),
        "",
        "aa^",
        1,
        "no\nrecord reach 1\nvar input 0\nclause 0\nstep 0 1 0\nunsat\n",
    ),
    (
        Kind::Reach(1),
        "",
        "ab&",
        1,
        "yes 11\nrecord reach 1\nvar input 0\nvar input 1\n\
        clause 1 -3 0\nclause 2 -3 0\nclause -1 -2 3 0\nclause 3 0\nsat 11\n",
    ),
    (
        Kind::Reach(1),
        "",
        "ab|",
        1,
        "yes 01\nrecord reach 1\nvar input 0\nvar input 1\n\
        clause -1 -3 0\nclause -2 -3 0\nclause 1 2 3 0\nclause -3 0\nsat 01\n",
    ),
    (
        Kind::Reach(1),
        "",
        "ab^",
        1,
        "yes 01\nrecord reach 1\nvar input 0\nvar input 1\n\
        clause -1 -2 -3 0\nclause -1 2 3 0\nclause 1 -2 3 0\nclause 1 2 -3 0\nclause 3 0\nsat 01\n",
    ),
    (
        Kind::Reach(1),
        "",
        "ab=",
        1,
        "yes 00\nrecord reach 1\nvar input 0\nvar input 1\n\
        clause -1 -2 -3 0\nclause -1 2 3 0\nclause 1 -2 3 0\nclause 1 2 -3 0\nclause -3 0\nsat 00\n",
    ),
    (
        Kind::Reach(1),
        "",
        "abc?",
        1,
        "yes 001\nrecord reach 1\nvar input 0\nvar input 1\nvar input 2\n\
        clause -1 -2 4 0\nclause -1 2 -4 0\nclause 1 -3 4 0\nclause 1 3 -4 0\nclause 4 0\nsat 001\n",
    ),
    (
        Kind::Reach(1),
        "",
        "aa!&",
        1,
        "no\nrecord reach 1\nvar input 0\nclause 0\nstep 0 1 0\nunsat\n",
    ),
    (
        Kind::Reach(1),
        "",
        "ab&a!&",
        1,
        "no\nrecord reach 1\nvar input 0\nvar input 1\nclause 1 -3 0\nclause 2 -3 0\nclause -1 -2 3 0\n\
        clause 3 -4 0\nclause -1 -4 0\nclause -3 1 4 0\nclause 4 0\nstep 0 7 4 5 1 0\nunsat\n",
    ),
];

/// Reads, also beside fixed inputs. A term that asks for one read in two widths is 1 nowhere.
const READS: [Row; 9] = [
    (
        Kind::Reach(1),
        "",
        "r",
        1,
        "yes  1w1\nrecord reach 1\nvar read 0 0\nclause 1 0\nsat 1\n",
    ),
    (
        Kind::Reach(1),
        "",
        "w",
        1,
        "yes  2w1\nrecord reach 1\nvar read 0 0\nvar read 0 1\nclause 1 0\nsat 10\n",
    ),
    (
        Kind::Reach(1),
        "",
        "s",
        1,
        "yes  1w0 1w1\nrecord reach 1\nvar read 1 0\nclause 1 0\nsat 1\n",
    ),
    (
        Kind::Reach(1),
        "",
        "rw&",
        1,
        "no\nrecord reach 1\nvar read 0 0\nvar read 0 1\nclause 0\nstep 0 1 0\nunsat\n",
    ),
    (
        Kind::Break(1),
        "0",
        "rw|",
        1,
        "no\nrecord break 1\nat 0\nvar read 0 0\nvar read 0 1\nclause 0\nstep 0 1 0\nunsat\n",
    ),
    (
        Kind::Break(1),
        "1",
        "arw?",
        1,
        "no\nrecord break 1\nat 1\nvar read 0 0\nclause 0\nstep 0 1 0\nunsat\n",
    ),
    (
        Kind::Break(1),
        "1",
        "ar&",
        1,
        "yes 1 1w1\nrecord break 1\nat 1\nvar read 0 0\nclause 1 0\nsat 1\n",
    ),
    (
        Kind::Break(1),
        "0",
        "ar&",
        1,
        "no\nrecord break 1\nat 0\nvar read 0 0\nclause 0\nstep 0 1 0\nunsat\n",
    ),
    (
        Kind::Nibble(2, 3),
        "10",
        "ar^",
        1,
        "yes 10 1w0\nrecord nibble 2 3\nat 10\nvar read 0 0\nclause -1 0\nsat 0\n",
    ),
];

/// Questions that take a cube, with an allowance that is spent and one that is not.
const CUBES: [Row; 7] = [
    (
        Kind::Reach(1),
        "",
        "ab^ab=&",
        1,
        "spent\nrecord reach 1\nvar input 0\nvar input 1\n\
        clause -1 -2 -3 0\nclause -1 2 3 0\nclause 1 -2 3 0\nclause 1 2 -3 0\n\
        clause -1 -2 -4 0\nclause -1 2 4 0\nclause 1 -2 4 0\nclause 1 2 -4 0\n\
        clause 3 -5 0\nclause -4 -5 0\nclause -3 4 5 0\nclause 5 0\ncube -1 0\nspent\n",
    ),
    (
        Kind::Reach(1),
        "",
        "ab^ab=&",
        9,
        "no\nrecord reach 1\nvar input 0\nvar input 1\n\
        clause -1 -2 -3 0\nclause -1 2 3 0\nclause 1 -2 3 0\nclause 1 2 -3 0\n\
        clause -1 -2 -4 0\nclause -1 2 4 0\nclause 1 -2 4 0\nclause 1 2 -4 0\n\
        clause 3 -5 0\nclause -4 -5 0\nclause -3 4 5 0\nclause 5 0\ncube -1 0\n\
        step 0 12 9 10 13 1 6 0\nunsat\n",
    ),
    (
        Kind::Reach(1),
        "",
        "ab|ab!|&",
        1,
        "spent\nrecord reach 1\nvar input 0\nvar input 1\n\
        clause -1 -3 0\nclause -2 -3 0\nclause 1 2 3 0\nclause -1 -4 0\nclause 2 -4 0\nclause 1 -2 4 0\n\
        clause -3 -5 0\nclause -4 -5 0\nclause 3 4 5 0\nclause 5 0\ncube -1 0\nspent\n",
    ),
    (
        Kind::Reach(1),
        "",
        "ab|ab!|&",
        2,
        "yes 10\nrecord reach 1\nvar input 0\nvar input 1\n\
        clause -1 -3 0\nclause -2 -3 0\nclause 1 2 3 0\nclause -1 -4 0\nclause 2 -4 0\nclause 1 -2 4 0\n\
        clause -3 -5 0\nclause -4 -5 0\nclause 3 4 5 0\nclause 5 0\ncube -1 0\nsat 10\n",
    ),
    (
        Kind::Reach(1),
        "",
        "bc|bc!|&aa!|&",
        9,
        "yes 010\nrecord reach 1\nvar input 0\nvar input 1\nvar input 2\n\
        clause -2 -4 0\nclause -3 -4 0\nclause 2 3 4 0\nclause -2 -5 0\nclause 3 -5 0\nclause 2 -3 5 0\n\
        clause -4 -6 0\nclause -5 -6 0\nclause 4 5 6 0\nclause 6 0\ncube -2 0\nsat 010\n",
    ),
    (
        Kind::Reach(1),
        "",
        "ab|c|ab|c!|&",
        1,
        "spent\nrecord reach 1\nvar input 0\nvar input 1\nvar input 2\n\
        clause -1 -4 0\nclause -2 -4 0\nclause 1 2 4 0\nclause 4 -5 0\nclause -3 -5 0\nclause -4 3 5 0\n\
        clause 4 -6 0\nclause 3 -6 0\nclause -4 -3 6 0\nclause -5 -7 0\nclause -6 -7 0\nclause 5 6 7 0\n\
        clause 7 0\ncube -1 -2 0\nspent\n",
    ),
    (
        Kind::Reach(1),
        "",
        "ab|c|ab|c!|&",
        9,
        "yes 010\nrecord reach 1\nvar input 0\nvar input 1\nvar input 2\n\
        clause -1 -4 0\nclause -2 -4 0\nclause 1 2 4 0\nclause 4 -5 0\nclause -3 -5 0\nclause -4 3 5 0\n\
        clause 4 -6 0\nclause 3 -6 0\nclause -4 -3 6 0\nclause -5 -7 0\nclause -6 -7 0\nclause 5 6 7 0\n\
        clause 7 0\ncube -1 -2 0\nsat 010\n",
    ),
];

/// Whether a port of nine bits is 4, and whether it is both 4 and 5.
const PORTS: [Row; 3] = [
    (
        Kind::Reach(1),
        "",
        "4",
        1,
        "yes 000000100\nrecord reach 1\nvar input 0\nvar input 1\nvar input 2\nvar input 3\nvar input 4\n\
        var input 5\nvar input 6\nvar input 7\nvar input 8\nclause -9 -10 0\nclause -8 -10 0\nclause 9 8 10 0\n\
        clause 10 -11 0\nclause 7 -11 0\nclause -10 -7 11 0\nclause 11 -12 0\nclause -6 -12 0\n\
        clause -11 6 12 0\nclause 12 -13 0\nclause -5 -13 0\nclause -12 5 13 0\nclause 13 -14 0\n\
        clause -4 -14 0\nclause -13 4 14 0\nclause 14 -15 0\nclause -3 -15 0\nclause -14 3 15 0\n\
        clause 15 -16 0\nclause -2 -16 0\nclause -15 2 16 0\nclause 16 -17 0\nclause -1 -17 0\n\
        clause -16 1 17 0\nclause 17 0\nsat 000000100\n",
    ),
    (
        Kind::Reach(1),
        "",
        "45&",
        0,
        "spent\nrecord reach 1\nvar input 0\nvar input 1\nvar input 2\nvar input 3\nvar input 4\nvar input 5\n\
        var input 6\nvar input 7\nvar input 8\nclause -9 -10 0\nclause -8 -10 0\nclause 9 8 10 0\n\
        clause 10 -11 0\nclause 7 -11 0\nclause -10 -7 11 0\nclause 11 -12 0\nclause -6 -12 0\n\
        clause -11 6 12 0\nclause 12 -13 0\nclause -5 -13 0\nclause -12 5 13 0\nclause 13 -14 0\n\
        clause -4 -14 0\nclause -13 4 14 0\nclause 14 -15 0\nclause -3 -15 0\nclause -14 3 15 0\n\
        clause 15 -16 0\nclause -2 -16 0\nclause -15 2 16 0\nclause 16 -17 0\nclause -1 -17 0\n\
        clause -16 1 17 0\nclause 9 -18 0\nclause -8 -18 0\nclause -9 8 18 0\nclause 18 -19 0\n\
        clause 7 -19 0\nclause -18 -7 19 0\nclause 19 -20 0\nclause -6 -20 0\nclause -19 6 20 0\n\
        clause 20 -21 0\nclause -5 -21 0\nclause -20 5 21 0\nclause 21 -22 0\nclause -4 -22 0\n\
        clause -21 4 22 0\nclause 22 -23 0\nclause -3 -23 0\nclause -22 3 23 0\nclause 23 -24 0\n\
        clause -2 -24 0\nclause -23 2 24 0\nclause 24 -25 0\nclause -1 -25 0\nclause -24 1 25 0\n\
        clause 17 -26 0\nclause 25 -26 0\nclause -17 -25 26 0\nclause 26 0\nspent\n",
    ),
    (
        Kind::Reach(1),
        "",
        "45&",
        1,
        "no\nrecord reach 1\nvar input 0\nvar input 1\nvar input 2\nvar input 3\nvar input 4\nvar input 5\n\
        var input 6\nvar input 7\nvar input 8\nclause -9 -10 0\nclause -8 -10 0\nclause 9 8 10 0\n\
        clause 10 -11 0\nclause 7 -11 0\nclause -10 -7 11 0\nclause 11 -12 0\nclause -6 -12 0\n\
        clause -11 6 12 0\nclause 12 -13 0\nclause -5 -13 0\nclause -12 5 13 0\nclause 13 -14 0\n\
        clause -4 -14 0\nclause -13 4 14 0\nclause 14 -15 0\nclause -3 -15 0\nclause -14 3 15 0\n\
        clause 15 -16 0\nclause -2 -16 0\nclause -15 2 16 0\nclause 16 -17 0\nclause -1 -17 0\n\
        clause -16 1 17 0\nclause 9 -18 0\nclause -8 -18 0\nclause -9 8 18 0\nclause 18 -19 0\n\
        clause 7 -19 0\nclause -18 -7 19 0\nclause 19 -20 0\nclause -6 -20 0\nclause -19 6 20 0\n\
        clause 20 -21 0\nclause -5 -21 0\nclause -20 5 21 0\nclause 21 -22 0\nclause -4 -22 0\n\
        clause -21 4 22 0\nclause 22 -23 0\nclause -3 -23 0\nclause -22 3 23 0\nclause 23 -24 0\n\
        clause -2 -24 0\nclause -23 2 24 0\nclause 24 -25 0\nclause -1 -25 0\nclause -24 1 25 0\n\
        clause 17 -26 0\nclause 25 -26 0\nclause -17 -25 26 0\nclause 26 0\n\
        step 0 52 49 50 22 23 46 19 20 43 16 17 40 13 14 37 10 11 34 7 8 31 4 5 28 1 2 25 0\nunsat\n",
    ),
];

#[test]
fn questions_and_their_records(rt: HostRuntime) -> Result<(), Fail> {
    for table in [CONSTANTS.as_slice(), &BITS, &READS, &CUBES, &PORTS] {
        for (kind, at, symbols, allowance, want) in table {
            let found = told(rt.alloc(), *kind, at, symbols, *allowance)?;
            let text = found.ok_or("it can be asked")?;
            assert_eq!(rt; text.as_str(), *want, "{symbols}");
        }
    }
    Ok(())
}

/// Terms that are none, and fixed bits that leave an input bit of the term open.
const NONE: [(Kind, &str, &str); 6] = [
    (Kind::Reach(1), "", ""),
    (Kind::Reach(1), "", "a&"),
    (Kind::Reach(1), "", "z"),
    (Kind::Break(1), "", "r"),
    (Kind::Break(1), "1", "ab&"),
    (Kind::Break(1), "11111111", "4"),
];

#[test]
fn what_cannot_be_asked(rt: HostRuntime) -> Result<(), Fail> {
    for (kind, at, symbols) in NONE {
        let found = told(rt.alloc(), kind, at, symbols, 1)?;
        assert!(rt; found.is_none(), "{symbols}");
    }
    Ok(())
}
