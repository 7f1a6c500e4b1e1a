//! Whole sources and their tokens: words, comments, directives, macros, annotations and marks, each with its place.
//! A token is shown as the letter of what it is, the bytes of its text where it has one, and its place; a refusal as its
//! number and place. `e` is the end of the text.

use p4_lexer::{Token, Tokens, Word, scan};
use std::alloc::{AllocError, Global};
use std::test::Fail;
use tg_base::{Fault, Span};

/// The longest source of a table.
const LONGEST: usize = 4_000_000;

/// Words, comments and directives.
const LINES: [(&str, &str); 36] = [
    ("", "e1:1"),
    ("a b", "i1@1:1 i1@1:3 e1:4"),
    ("/* x */a//b\nc", "i1@1:8 i1@2:1 e2:2"),
    ("/* a", "!11@1:1"),
    ("a \"b", "!11@1:3"),
    ("\"/* x\" y", "x4@1:1 i1@1:8 e1:9"),
    ("/*\n#x\n*/a", "i1@3:3 e3:4"),
    ("  #include <core.p4>\na", "i1@2:1 e2:2"),
    ("#define F(x) y\n", "!12@1:1"),
    ("#ifdef A\n#else\n#else\n#endif\n", "!12@3:1"),
    ("#endif\n", "!12@1:1"),
    ("a\n#ifdef A\nb", "!12@2:1"),
    ("#ifdef A\n\"x\n'\n#endif\nb", "i1@5:1 e5:2"),
    ("#ifndef A\na\n#else\nb\n#endif\nc", "i1@2:1 i1@6:1 e6:2"),
    ("_ _a __", "s@1:1 i2@1:3 i2@1:6 e1:8"),
    ("0x_", "!11@1:1"),
    ("8w256", "n5@1:1 e1:6"),
    ("129w0", "!11@1:1"),
    ("4294967296w1", "!11@1:1"),
    ("a 1a", "!11@1:3"),
    ("a\r\nb\tc", "i1@1:1 i1@2:1 i1@2:3 e2:4"),
    ("// \u{e9}\na", "i1@2:1 e2:2"),
    ("\"\u{e9}\" a", "x2@1:1 i1@1:6 e1:7"),
    ("a \u{e9}", "!11@1:3"),
    ("#ifndef X\n$", "!12@1:1"),
    ("#define X $\n", "!11@1:11"),
    ("# define X\na", "!12@1:1"),
    ("#include<core.p4>\na", "i1@2:1 e2:2"),
    ("#include < core.p4 >\n", "!12@1:1"),
    ("#ifdef/*c*/X\n#endif\n", "!12@1:1"),
    ("\"a\\\n#b\" c", "x5@1:1 i1@2:5 e2:6"),
    ("a/* \n */ #endif\n", "!11@2:5"),
    ("x\n #\n", "!12@2:2"),
    ("#ifdef A\n#define B 1\n#endif\nB", "i1@4:1 e4:2"),
    ("#ifdef A\n#x\n#endif\n", "!12@2:1"),
    (
        "a;\n#include <v1model.p4> // b\n;",
        "i1@1:1 s@1:2 s@3:1 e3:2",
    ),
];

/// Macros, annotations and marks.
const MARKS: [(&str, &str); 34] = [
    ("#define A A\nA", "i1@2:1 e2:2"),
    ("#define A B\n#define B A\nA", "i1@3:1 e3:2"),
    ("#define A b/* c */d\nA e", "i1@2:1 i1@2:1 i1@2:3 e2:4"),
    ("#define X+1\nX", "s@2:1 n1@2:1 e2:2"),
    ("#define A b /* x\ny */ c\nA", "i1@2:6 i1@3:1 e3:2"),
    ("#define struct header\nstruct A", "k@2:1 i1@2:8 e2:9"),
    ("#define A 1\n#undef A\nA", "i1@3:1 e3:2"),
    ("#define A 1\n#define A 2 3\nA", "n1@3:1 n1@3:1 e3:2"),
    ("A\n#define A 1\nA", "i1@1:1 n1@3:1 e3:2"),
    ("#define A B B\n#define B c\nA", "i1@3:1 i1@3:1 e3:2"),
    ("#define A\nb A c", "i1@2:1 i1@2:5 e2:6"),
    ("@name(\"x\") a", "N1@1:1 i1@1:12 e1:13"),
    ("@name (5) a", "i1@1:11 e1:12"),
    ("@foo a", "i1@1:6 e1:7"),
    ("@foo(a(b)c) d", "i1@1:13 e1:14"),
    ("@foo(a", "s@1:5 i1@1:6 e1:7"),
    ("@ a", "!11@1:1"),
    ("@defaultonly(a)", "D@1:1 s@1:13 i1@1:14 s@1:15 e1:16"),
    ("@tableonly a", "T@1:1 i1@1:12 e1:13"),
    ("#define P (a)\n@foo P b", "i1@2:8 e2:9"),
    ("bit<8>>", "k@1:1 <@1:4 n1@1:5 >@1:6 s@1:7 e1:8"),
    (
        "bit<(a >> b)>",
        "k@1:1 <@1:4 s@1:5 i1@1:6 s@1:8 i1@1:11 s@1:12 >@1:13 e1:14",
    ),
    (
        "struct A{A a;}",
        "k@1:1 i1@1:8 s@1:9 t1@1:10 i1@1:12 s@1:13 s@1:14 e1:15",
    ),
    (
        "typedef bit<8> T;T t",
        "k@1:1 k@1:9 <@1:12 n1@1:13 >@1:14 i1@1:16 s@1:17 t1@1:18 i1@1:20 e1:21",
    ),
    (
        "enum bit<8> E{}E.a",
        "k@1:1 k@1:6 <@1:9 n1@1:10 >@1:11 i1@1:13 s@1:14 s@1:15 b1@1:16 s@1:17 i1@1:18 e1:19",
    ),
    ("m.if.extern", "i1@1:1 s@1:2 i2@1:3 s@1:5 i6@1:6 e1:12"),
    ("error.X error", "b5@1:1 s@1:6 i1@1:7 k@1:9 e1:14"),
    (
        "p.lookahead<H>()",
        "i1@1:1 s@1:2 L@1:3 <@1:12 i1@1:13 >@1:14 s@1:15 s@1:16 e1:17",
    ),
    ("p.lookahead x", "i1@1:1 s@1:2 i9@1:3 i1@1:13 e1:14"),
    (
        "register<bit<8>>(4)r;",
        "t8@1:1 <@1:9 k@1:10 <@1:13 n1@1:14 >@1:15 >@1:16 s@1:17 n1@1:18 s@1:19 i1@1:20 s@1:21 e1:22",
    ),
    ("extern a", "r@1:1 i1@1:8 e1:9"),
    ("a<b>c", "i1@1:1 s@1:2 i1@1:3 s@1:4 i1@1:5 e1:6"),
    (
        "#define W bit<8>>\nW",
        "k@2:1 <@2:1 n1@2:1 >@2:1 s@2:1 e2:2",
    ),
    ("bit<8>=", "k@1:1 <@1:4 n1@1:5 >@1:6 s@1:7 e1:8"),
];

/// The names of macros, each of which doubles the one before.
const LETTERS: &[u8; 20] = b"abcdefghijklmnopqrst";

/// A source with so many pieces: what stands before, the piece, how many there are, how many macros then double the one
/// before, and what stands behind.
type Repeated = (&'static str, &'static str, usize, usize, &'static str);

/// At the limits and past them. Of the macro s come 2^18 words and 2^19 - 1 replaced names. Of k come 1,024 words that
/// weigh 65,502 each and 2,047 replaced names that weigh 17 each: 17 below the limit.
const LIMITS: [(Repeated, &str); 9] = [
    (("", "a\n", 1_000_000, 0, ""), "1000000 tokens"),
    (("", "a\n", 1_000_000, 0, "b"), "!15@1000001:1"),
    (("#define A\n", "A ", 999_999, 0, "b"), "1 tokens"),
    (("#define A\n", "A ", 1_000_000, 0, "b"), "!15@2:2000001"),
    (("#define a ", "x", 1, 18, "\ns"), "262144 tokens"),
    (("#define a ", "x", 1, 18, "\ns s"), "!15@20:3"),
    (("#define a ", "x", 1, 19, "\nt"), "!15@21:1"),
    (("#define a ", "x", 65_486, 10, "\nk z"), "1025 tokens"),
    (("#define a ", "x", 65_486, 10, "\nk z z"), "!15@12:5"),
];

/// The letter of a word, and the bytes of its text.
fn mark(word: &Word) -> (&'static str, Option<usize>) {
    match word {
        Word::Keyword(_) => ("k", None),
        Word::Reserved(_) => ("r", None),
        Word::Sign(_) => ("s", None),
        Word::Id(name) => ("i", Some(name.len())),
        Word::TypeName(name) => ("t", Some(name.len())),
        Word::Base(name) => ("b", Some(name.len())),
        Word::Int(number) => ("n", Some(number.spelling.len())),
        Word::Text(text) => ("x", Some(text.len())),
        Word::Named(text) => ("N", Some(text.len())),
        Word::DefaultOnly => ("D", None),
        Word::TableOnly => ("T", None),
        Word::Lookahead => ("L", None),
        Word::OpenArguments => ("<", None),
        Word::CloseArguments => (">", None),
    }
}

/// A token as the tables show it.
fn shown(alloc: Global, token: &Token) -> Result<String, AllocError> {
    let Span { line, column } = token.span;
    match mark(&token.word) {
        (letter, Some(len)) => format!(in alloc; "{letter}{len}@{line}:{column} "),
        (letter, None) => format!(in alloc; "{letter}@{line}:{column} "),
    }
}

/// The tokens of a source of the tables, or its refusal as the tables show it.
fn read(alloc: Global, source: &[u8]) -> Result<Result<Tokens, String>, AllocError> {
    if source.len() > LONGEST {
        return Ok(Err(String::new(alloc)));
    }
    match scan(alloc, source) {
        Ok(tokens) => Ok(Ok(tokens)),
        Err(Fault::Refused(refusal)) => {
            let (code, line, column) = (refusal.code.number(), refusal.line, refusal.column);
            Ok(Err(format!(in alloc; "!{code}@{line}:{column}")?))
        }
        Err(Fault::Memory(fault)) => Err(fault),
    }
}

/// What a source is scanned to, token by token.
fn scanned(alloc: Global, source: &[u8]) -> Result<String, AllocError> {
    match read(alloc, source)? {
        Ok(tokens) => {
            let mut answer = String::new(alloc);
            for token in tokens.tokens.as_slice() {
                answer.push_str(shown(alloc, token)?.as_str())?;
            }
            let Span { line, column } = tokens.end;
            answer.push_str(format!(in alloc; "e{line}:{column}")?.as_str())?;
            Ok(answer)
        }
        Err(refusal) => Ok(refusal),
    }
}

/// What a source is scanned to, by the count of its tokens.
fn counted(alloc: Global, source: &[u8]) -> Result<String, AllocError> {
    match read(alloc, source)? {
        Ok(tokens) => {
            let count = tokens.tokens.len();
            format!(in alloc; "{count} tokens")
        }
        Err(refusal) => Ok(refusal),
    }
}

/// The bytes of a source with repeated pieces.
fn repeated(alloc: Global, source: Repeated) -> Result<Vec<u8>, AllocError> {
    let (before, piece, times, doublings, after) = source;
    let mut bytes = before.as_bytes().to_vec(alloc)?;
    for _ in 0..times {
        bytes.extend_from_slice(piece.as_bytes())?;
    }
    for letters in LETTERS.windows(2).take(doublings) {
        doubled(&mut bytes, letters)?;
    }
    bytes.extend_from_slice(after.as_bytes())?;
    Ok(bytes)
}

/// Adds the line in which the second letter names two of the first.
fn doubled(bytes: &mut Vec<u8>, letters: &[u8]) -> Result<(), AllocError> {
    if let [letter, next] = letters {
        bytes.extend_from_slice(b"\n#define ")?;
        bytes.extend_from_slice(&[*next, b' ', *letter, b' ', *letter])?;
    }
    Ok(())
}

#[test]
fn words_stand_where_they_are_and_directives_are_taken(rt: HostRuntime) -> Result<(), Fail> {
    for (source, answer) in LINES {
        let got = scanned(rt.alloc(), source.as_bytes())?;
        assert_eq!(rt; got.as_str(), answer, "{source}");
    }
    Ok(())
}

#[test]
fn macros_are_replaced_and_words_are_marked(rt: HostRuntime) -> Result<(), Fail> {
    for (source, answer) in MARKS {
        let got = scanned(rt.alloc(), source.as_bytes())?;
        assert_eq!(rt; got.as_str(), answer, "{source}");
    }
    Ok(())
}

#[test]
fn what_is_no_text_or_past_a_limit_is_refused_at_its_place(rt: HostRuntime) -> Result<(), Fail> {
    let rows: [(&[u8], &str); 5] = [
        (b"\xff", "!10@1:1"),
        (b"// \xff", "!10@1:4"),
        (b"a \xff", "!10@1:3"),
        (b"$ \xff", "!11@1:1"),
        (b"a\n\xe2\x82", "!10@2:1"),
    ];
    for (source, answer) in rows {
        let got = scanned(rt.alloc(), source)?;
        assert_eq!(rt; got.as_str(), answer, "{source:?}");
    }
    for (source, answer) in LIMITS {
        let bytes = repeated(rt.alloc(), source)?;
        let got = counted(rt.alloc(), bytes.as_slice())?;
        assert_eq!(rt; got.as_str(), answer, "{source:?}");
    }
    Ok(())
}
