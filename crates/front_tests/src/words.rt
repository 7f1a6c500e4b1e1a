//! The words of a source: whole texts and single lines cut into their pieces, what numbers stand for, which words are
//! keywords, reserved words and signs, places behind bytes, and bytes that are no text.

use p4_lexer::{
    Keyword, Kind, Piece, Reserved, Sign, first_bad_byte, keyword_of, lead_len, line_pieces,
    literal, piece_at, place_behind, reserved_of, rest_of_line_len, sign_of,
};
use std::alloc::{AllocError, Global};
use std::test::Fail;
use tg_base::{IntType, IntValue, Literal, Span};

/// The longest text of a table of places.
const LONGEST: usize = 100;

/// Texts, and their pieces: the letter of the kind and the length of each.
const TEXTS: [(&str, &str); 13] = [
    (
        "struct A{_a5 b;__}if(x)x8w1 _;",
        "N6 B1 N1 S1 N3 B1 N1 S1 N2 S1 N2 S1 N1 S1 N4 B1 S1 S1 ",
    ),
    (
        "1 1_000;5_ 1__0 4_8w1 1a 12abc",
        "I1 B1 I5 S1 I2 B1 I4 B1 I3 N2 B1 I1 N1 B1 I2 N3 ",
    ),
    (
        "0x_F;0xFG 0x_ 0b12 0o78 0d19a",
        "I4 S1 I3 N1 B1 I1 N2 B1 I3 I1 B1 I3 I1 B1 I4 N1 ",
    ),
    (
        "8w255 8w0xFF;08w1 129w1 0w1 8W1 8w0xZ",
        "I5 B1 I6 S1 I4 B1 I3 N2 B1 I1 N2 B1 I1 N2 B1 I3 N2 ",
    ),
    ("\"abc\" \"\" \"a\\\"b\" \"/* x\"", "T5 B1 T2 B1 T6 B1 T6 "),
    ("\"abc\n\"", "t4 B1 t1 "),
    (
        "// x\ny/* a */b/**//***/x/* a /* b */c",
        "C4 B1 N1 C7 N1 C4 C5 N1 C12 N1 ",
    ),
    ("/= / */*/", "S1 S1 B1 S1 B1 S1 c3 "),
    (
        "&&&&|+||-|<<=>>===!=+++...",
        "S3 S1 S3 S3 S2 S1 S2 S2 S1 S2 S2 S1 S2 S1 ",
    ),
    (
        "@name(\"x\") @_a @ x @_ @5",
        "A5 S1 T3 S1 B1 A3 B1 X1 B1 N1 B1 X1 S1 B1 X1 I1 ",
    ),
    (
        " \t\r\n$#define X\\'`",
        "B1 B1 B1 B1 X1 X1 N6 B1 N1 X1 X1 X1 ",
    ),
    (
        "package\u{e9}\u{c}\0\"\u{e9}\"//\u{e9}",
        "N7 X1 X1 X1 X1 T4 C4 ",
    ),
    ("x/* a\n#endif\n", "N1 c12 "),
];

/// Numbers, the types that their prefixes give, and their values where 128 bits are enough.
const NUMBERS: [(&str, IntType, IntValue); 10] = [
    ("007", IntType::Integer, IntValue::Exact(7)),
    ("0XaB_c", IntType::Integer, IntValue::Exact(0xabc)),
    ("0b1_01", IntType::Integer, IntValue::Exact(5)),
    ("8w256", IntType::Unsigned(8), IntValue::Exact(256)),
    ("08w0x1F", IntType::Unsigned(8), IntValue::Exact(31)),
    ("1s1", IntType::Signed(1), IntValue::Exact(1)),
    ("128w0", IntType::Unsigned(128), IntValue::Exact(0)),
    ("129w0", IntType::Integer, IntValue::Exact(129)),
    (
        "340282366920938463463374607431768211455",
        IntType::Integer,
        IntValue::Exact(u128::MAX),
    ),
    (
        "4w340282366920938463463374607431768211456",
        IntType::Unsigned(4),
        IntValue::TooLarge,
    ),
];

/// Texts, and the pieces of their first lines.
const LINES: [(&str, &str); 9] = [
    ("", ""),
    ("else", "N4 "),
    ("\nx", "B1 "),
    ("ifdef A // x\nB", "N5 B1 N1 B1 C4 B1 "),
    ("include <core.p4>\r\n#", "N7 B1 S1 N4 S1 N2 S1 B1 B1 "),
    ("a/* \n */ b\n", "N1 C7 "),
    ("\"a\\\n\" x", "T5 "),
    ("x \"a\ny", "N1 B1 t2 B1 "),
    ("5/* a\n\n", "I1 c6 "),
];

/// Texts, the blanks before the `#` that begins the line, and the bytes of the line.
const STARTS: [(&str, Option<usize>, usize); 7] = [
    ("#if", Some(0), 3),
    (" \t#x\ny", Some(2), 5),
    ("\r#\n", Some(1), 3),
    ("\n#", None, 1),
    ("a #\n#", None, 4),
    ("  ", None, 2),
    ("/* */#", None, 6),
];

/// Spellings, and the keyword, the reserved word or the sign that each is.
const SPELLINGS: [(&str, Option<Keyword>, Option<Reserved>, Option<Sign>); 16] = [
    ("", None, None, None),
    ("action", Some(Keyword::Action), None, None),
    ("actions", Some(Keyword::Actions), None, None),
    ("in", Some(Keyword::In), None, None),
    ("header", Some(Keyword::Header), None, None),
    ("typedef", Some(Keyword::Typedef), None, None),
    ("Action", None, None, None),
    ("lookahead", None, None, None),
    ("extern", None, Some(Reserved::Extern), None),
    ("header_union", None, Some(Reserved::HeaderUnion), None),
    ("value_set", None, Some(Reserved::ValueSet), None),
    ("&&&", None, None, Some(Sign::Mask)),
    ("&&", None, None, Some(Sign::And)),
    ("|-|", None, None, Some(Sign::SaturatingMinus)),
    ("_", None, None, Some(Sign::Underscore)),
    ("|-", None, None, None),
];

fn letter(kind: Kind) -> &'static str {
    match kind {
        Kind::Blank => "B",
        Kind::Comment => "C",
        Kind::Name => "N",
        Kind::Number => "I",
        Kind::Text => "T",
        Kind::Sign => "S",
        Kind::Annotation => "A",
        Kind::OpenComment => "c",
        Kind::OpenText => "t",
        Kind::Stray => "X",
    }
}

/// A piece as the tables show it.
fn shown(alloc: Global, piece: Piece) -> Result<String, AllocError> {
    let (mark, len) = (letter(piece.kind), piece.len);
    format!(in alloc; "{mark}{len} ")
}

/// The pieces of a text, as the table shows them.
fn cut(alloc: Global, text: &str) -> Result<String, AllocError> {
    let mut pieces = String::new(alloc);
    let mut rest = text.as_bytes();
    for _piece in 0..text.len() {
        if rest.is_empty() {
            break;
        }
        let piece = piece_at(rest);
        pieces.push_str(shown(alloc, piece)?.as_str())?;
        let Some(next) = rest.get(piece.len..) else {
            break;
        };
        rest = next;
    }
    Ok(pieces)
}

/// The pieces of the first line of a text.
fn first_line(alloc: Global, text: &str) -> Result<String, AllocError> {
    let mut pieces = String::new(alloc);
    for piece in line_pieces(alloc, text.as_bytes())?.as_slice() {
        pieces.push_str(shown(alloc, *piece)?.as_str())?;
    }
    Ok(pieces)
}

/// What the number at the start of the text stands for.
fn number_at(alloc: Global, text: &[u8]) -> Result<Option<Literal>, AllocError> {
    if text.is_empty() {
        return Ok(None);
    }
    let piece = piece_at(text);
    match piece.kind {
        Kind::Number => Ok(Some(literal(alloc, &text[..piece.len])?)),
        _ => Ok(None),
    }
}

#[test]
fn texts_are_cut_and_numbers_are_read(rt: HostRuntime) -> Result<(), Fail> {
    for (text, pieces) in TEXTS {
        let got = cut(rt.alloc(), text)?;
        assert_eq!(rt; got.as_str(), pieces, "{text}");
    }
    for (text, int_type, value) in NUMBERS {
        let found = number_at(rt.alloc(), text.as_bytes())?.ok_or("no number")?;
        assert_eq!(rt; found.int_type, int_type, "{text}");
        assert_eq!(rt; found.value, value, "{text}");
    }
    Ok(())
}

#[test]
fn lines_end_and_spellings_are_known(rt: HostRuntime) -> Result<(), Fail> {
    for (text, pieces) in LINES {
        let got = first_line(rt.alloc(), text)?;
        assert_eq!(rt; got.as_str(), pieces, "{text}");
    }
    for (text, lead, len) in STARTS {
        let bytes = text.as_bytes();
        if bytes.is_empty() {
            return Err("an empty row".into());
        }
        assert_eq!(rt; lead_len(bytes), lead, "{text}");
        assert_eq!(rt; rest_of_line_len(bytes), len, "{text}");
    }
    for (text, keyword, reserved, sign) in SPELLINGS {
        let spelling = text.as_bytes();
        assert_eq!(rt; keyword_of(spelling), keyword, "{text}");
        assert_eq!(rt; reserved_of(spelling), reserved, "{text}");
        assert_eq!(rt; sign_of(spelling), sign, "{text}");
    }
    Ok(())
}

#[test]
fn places_count_lines_and_bytes(rt: HostRuntime) -> Result<(), Fail> {
    let start = Span { line: 1, column: 1 };
    for (text, line, column) in [
        ("", 1, 1),
        ("ab", 1, 3),
        ("a\n", 2, 1),
        ("a\n\n b", 3, 3),
        ("\u{e9}", 1, 3),
        ("a\rb", 1, 4),
        ("a\r\nb\t", 2, 3),
    ] {
        let bytes = text.as_bytes();
        if bytes.len() > LONGEST {
            return Err("a long row".into());
        }
        assert_eq!(rt; place_behind(start, bytes), Span { line, column }, "{text}");
    }
    let rows: [(&[u8], Option<usize>); 6] = [
        (b"", None),
        (b"\xe2\x82\xac", None),
        (b"// \xff", Some(3)),
        (b"ab\xc3", Some(2)),
        (b"\xed\xa0\x80", Some(0)),
        (b"x\n\xc0\x80", Some(2)),
    ];
    for (bytes, at) in rows {
        assert_eq!(rt; first_bad_byte(bytes), at, "{bytes:?}");
    }
    Ok(())
}
