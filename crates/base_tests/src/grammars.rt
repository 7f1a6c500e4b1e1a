//! Grammars that keep and that break each condition, and token lists with a tree and without, for `ll1_engine`. In the
//! tables a row is its rank, its left symbol and its right symbols, as `(0, X, &[A, B])` for `x = a b`.

use ll1_engine::{
    Break, CheckFault, Grammar, ParseFault, Row, Rows, Symbols, TableFault, Tree, check_table,
    parse,
};
use std::alloc::{AllocError, Global};
use std::test::Fail;

/// The rows and symbols of each grammar of the tables: rows of its own, then an empty row for each symbol from `FILLER`
/// on. Those rows break nothing, and no list has a tree with one.
const ROWS: usize = 6;

const FILLER: usize = 6;

const SYMBOLS: usize = 12;

const X: usize = 0;

const Y: usize = 1;

const Z: usize = 2;

const W: usize = 3;

const A: usize = 4;

const B: usize = 5;

type Line = (u32, usize, &'static [usize]);

/// The tokens of statements.
const IF: usize = A;

const OTHER: usize = B;

const ELSE: usize = Z;

/// Statements: `x = if x y | other`, `y = else x | nothing`, where the row of `else` has a rank.
const NEAREST: &[Line] = &[
    (0, X, &[IF, X, Y]),
    (0, X, &[OTHER]),
    (1, Y, &[ELSE, X]),
    (0, Y, &[]),
];

/// The same without a rank.
const DANGLING: &[Line] = &[
    (0, X, &[IF, X, Y]),
    (0, X, &[OTHER]),
    (0, Y, &[ELSE, X]),
    (0, Y, &[]),
];

/// Lists: `x = a x | nothing`.
const LIST: &[Line] = &[(0, X, &[A, X]), (0, X, &[])];

/// Sums: `x = y z`, `z = a y z | nothing`, `y = b | w x w`, with a for the sign, b for an operand and w for a bracket.
const SUM: &[Line] = &[
    (0, X, &[Y, Z]),
    (0, Z, &[A, Y, Z]),
    (0, Z, &[]),
    (0, Y, &[B]),
    (0, Y, &[W, X, W]),
];

/// Token lists with the rows of their trees.
const TREES: [(&str, &[Line], &[usize], &[usize]); 9] = [
    (
        "an else of the inner if",
        NEAREST,
        &[IF, IF, OTHER, ELSE, OTHER],
        &[0, 0, 1, 2, 1, 3],
    ),
    (
        "an if behind else",
        NEAREST,
        &[IF, OTHER, ELSE, IF, OTHER],
        &[0, 1, 2, 0, 1, 3],
    ),
    (
        "two elses",
        NEAREST,
        &[IF, IF, OTHER, ELSE, OTHER, ELSE, OTHER],
        &[0, 0, 1, 2, 1, 2, 1],
    ),
    ("no else", NEAREST, &[IF, IF, OTHER], &[0, 0, 1, 3, 3]),
    ("a list of three", LIST, &[A, A, A], &[0, 0, 0, 1]),
    ("an empty list", LIST, &[], &[1]),
    ("a sum", SUM, &[B, A, B], &[0, 3, 1, 3, 2]),
    (
        "a sum in a sum",
        SUM,
        &[W, B, A, B, W, A, B],
        &[0, 4, 0, 3, 1, 3, 2, 1, 3, 2],
    ),
    ("the start is a token", &[], &[X], &[]),
];

/// Token lists with the places where they stop.
const STOPS: [(&str, &[Line], &[usize], usize); 12] = [
    ("an else at the start", NEAREST, &[ELSE, IF], 0),
    ("an else behind if", NEAREST, &[IF, ELSE, OTHER], 1),
    ("nothing behind else", NEAREST, &[IF, OTHER, ELSE], 3),
    ("nothing", NEAREST, &[], 0),
    ("two statements", NEAREST, &[IF, OTHER, OTHER, OTHER], 2),
    ("a third else", NEAREST, &[IF, OTHER, ELSE, OTHER, ELSE], 4),
    ("another token in a list", LIST, &[A, A, B, A], 2),
    ("no operand", SUM, &[B, A], 2),
    ("an operand too many", SUM, &[W, B, A, B, B], 4),
    ("an end too many", SUM, &[W, B, W, W], 3),
    ("the start is a token, twice", &[], &[X, X], 1),
    ("the start is a token, and there is none", &[], &[], 0),
];

fn row_of(alloc: Global, line: &Line) -> Result<Row, AllocError> {
    let (rank, left, right) = *line;
    let right = Symbols::from_slice(alloc, right)?;
    Ok(Row { left, right, rank })
}

/// The lines as a grammar, filled up to all rows.
fn grammar_of(alloc: Global, lines: &[Line]) -> Result<Option<Grammar<SYMBOLS, ROWS>>, AllocError> {
    let mut rows = Rows::new(alloc);
    for line in lines {
        rows.push(row_of(alloc, line)?)?;
    }
    for i in lines.len()..ROWS {
        rows.push(row_of(alloc, &(0, FILLER + i, &[]))?)?;
    }
    Ok(Grammar::new(rows))
}

/// The fault of a grammar, or none where it is accepted.
fn fault_of<const S: usize, const R: usize>(
    alloc: Global,
    grammar: &Grammar<S, R>,
) -> Result<Option<TableFault>, Fail> {
    match check_table(alloc, grammar) {
        Ok(_checked) => Ok(None),
        Err(CheckFault::Table(fault)) => Ok(Some(fault)),
        Err(CheckFault::Memory(e)) => Err(e.into()),
    }
}

/// The tree of the tokens, or where they stop.
fn parsed<const S: usize, const R: usize>(
    alloc: Global,
    grammar: &Grammar<S, R>,
    tokens: &[usize],
) -> Result<Result<Tree, usize>, Fail> {
    let checked = match check_table(alloc, grammar) {
        Ok(checked) => checked,
        Err(_) => return Err("refused".into()),
    };
    if !checked.are_tokens(tokens) {
        return Err("no tokens".into());
    }
    match parse(alloc, &checked, tokens) {
        Ok(tree) => Ok(Ok(tree)),
        Err(ParseFault::Stop(stop)) => Ok(Err(stop.at)),
        Err(ParseFault::Memory(e)) => Err(e.into()),
    }
}

fn broken(row: usize, breaks: Break) -> Option<TableFault> {
    Some(TableFault { row, breaks })
}

#[test]
fn the_first_broken_condition_of_the_first_row_is_named(rt: HostRuntime) -> Result<(), Fail> {
    let cases: [(&str, &[Line], Option<TableFault>); 28] = [
        (
            "two rows begin with a token",
            &[(0, X, &[A]), (0, X, &[A, B])],
            broken(0, Break::First),
        ),
        (
            "a row of itself alone",
            &[(0, X, &[X])],
            broken(0, Break::Barren),
        ),
        (
            "a barren symbol that is reached",
            &[(0, X, &[A]), (0, X, &[Y]), (0, Y, &[Y])],
            broken(2, Break::Barren),
        ),
        (
            "a barren symbol that nothing reaches",
            &[(0, X, &[A]), (0, Y, &[Y, B])],
            broken(1, Break::Barren),
        ),
        (
            "barren, with a rank",
            &[(1, X, &[A, X])],
            broken(0, Break::Barren),
        ),
        (
            "a rank in the only row",
            &[(1, X, &[A])],
            broken(0, Break::Rank),
        ),
        (
            "a rank whose token stands elsewhere",
            &[(0, X, &[A, Y]), (1, Y, &[A]), (0, Y, &[])],
            broken(1, Break::Rank),
        ),
        (
            "a rank whose token stands twice in the row",
            &[(1, X, &[A, A]), (0, X, &[])],
            broken(0, Break::Rank),
        ),
        (
            "a rank beside a full row",
            &[(1, X, &[A]), (0, X, &[B])],
            broken(0, Break::Rank),
        ),
        (
            "a rank beside two rows",
            &[(1, X, &[A]), (0, X, &[B]), (0, X, &[])],
            broken(0, Break::Rank),
        ),
        (
            "two ranks",
            &[(1, X, &[A]), (2, X, &[])],
            broken(0, Break::Rank),
        ),
        (
            "a rank of an empty row",
            &[(0, X, &[A]), (1, X, &[])],
            broken(1, Break::Rank),
        ),
        (
            "a rank of a row that begins with no token",
            &[(1, X, &[Y]), (0, X, &[]), (0, Y, &[A])],
            broken(0, Break::Rank),
        ),
        (
            "a rank before a shared first token",
            &[(1, X, &[A]), (0, X, &[A])],
            broken(0, Break::Rank),
        ),
        (
            "two nullable rows",
            &[(0, X, &[Y]), (0, X, &[]), (0, Y, &[])],
            broken(0, Break::Nullable),
        ),
        (
            "two rows nullable and with one first token",
            &[(0, X, &[Y]), (0, X, &[Y]), (0, Y, &[A]), (0, Y, &[])],
            broken(0, Break::Nullable),
        ),
        (
            "a first token that follows",
            &[(0, X, &[Y, A]), (0, Y, &[A]), (0, Y, &[])],
            broken(1, Break::Follow),
        ),
        (
            "a first token that is shared and follows",
            &[(0, X, &[Y, A]), (0, Y, &[A]), (0, Y, &[A, B]), (0, Y, &[])],
            broken(1, Break::First),
        ),
        (
            "left recursion",
            &[(0, X, &[X, A]), (0, X, &[B])],
            broken(0, Break::First),
        ),
        (
            "a first token past a nullable symbol",
            &[(0, X, &[Y, A]), (0, X, &[A]), (0, Y, &[]), (0, Y, &[B])],
            broken(0, Break::First),
        ),
        (
            "what follows the left follows the last symbol",
            &[
                (0, X, &[Y, A]),
                (0, Y, &[Z]),
                (0, Z, &[W]),
                (0, Z, &[A]),
                (0, W, &[]),
            ],
            broken(3, Break::Follow),
        ),
        (
            "the same with another token",
            &[
                (0, X, &[Y, A]),
                (0, Y, &[Z]),
                (0, Z, &[W]),
                (0, Z, &[B]),
                (0, W, &[]),
            ],
            None,
        ),
        (
            "what follows past a nullable symbol",
            &[(0, X, &[Y, Z, A]), (0, Y, &[A]), (0, Y, &[]), (0, Z, &[])],
            broken(1, Break::Follow),
        ),
        ("a dangling else", DANGLING, broken(2, Break::Follow)),
        ("an else of the nearest if", NEAREST, None),
        ("a list", LIST, None),
        ("sums", SUM, None),
        ("no row", &[], None),
    ];
    for (name, lines, fault) in cases {
        let grammar = grammar_of(rt.alloc(), lines)?.ok_or("no grammar")?;
        assert_eq!(rt; fault_of(rt.alloc(), &grammar)?, fault, "{name}");
    }
    let bare = Grammar::<1, 0>::new(Rows::new(rt.alloc())).ok_or("no grammar")?;
    assert_eq!(rt; fault_of(rt.alloc(), &bare)?, None);
    Ok(())
}

#[test]
fn lists_have_their_tree_or_stop(rt: HostRuntime) -> Result<(), Fail> {
    for (name, lines, tokens, rows) in TREES {
        let grammar = grammar_of(rt.alloc(), lines)?.ok_or("no grammar")?;
        match parsed(rt.alloc(), &grammar, tokens)? {
            Ok(tree) => assert_eq!(rt; tree.as_slice(), rows, "{name}"),
            Err(_) => return Err(name.into()),
        }
    }
    for (name, lines, tokens, at) in STOPS {
        let grammar = grammar_of(rt.alloc(), lines)?.ok_or("no grammar")?;
        match parsed(rt.alloc(), &grammar, tokens)? {
            Ok(_) => return Err(name.into()),
            Err(stop) => assert_eq!(rt; stop, at, "{name}"),
        }
    }
    Ok(())
}
