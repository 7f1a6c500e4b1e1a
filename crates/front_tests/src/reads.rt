//! Sources and what their reading answers: each line of a table has the answer, and behind a blank the source. `ok` says that
//! there is a tree, and else stand the refusal's number and its place.

use p4_grammar::read;
use p4_lexer::scan;
use std::alloc::{AllocError, Global};
use std::test::Fail;
use tg_base::Fault;

/// The longest source of a table.
const LONGEST: usize = 4_000;

/// Declarations, each accepted, and refused at its place.
const DECLARATIONS: &str = r#"
ok 
ok ;;
13@1:1 x
13@1:1 5
13@1:1 extern x;
13@1:12 @name("a") ;
ok @name("a") const int c = 1;
13@1:22 @name("a") @name("b")
ok const bit<8> c = 1;
13@1:14 const bit<8> = 1;
13@1:16 const bit<8> c 1;
13@1:18 const bit<8> c = ;
13@1:19 const bit<8> c = 1
13@1:7 const c = 1;
ok typedef bit<8> t;
13@1:16 typedef bit<8> ;
13@1:18 typedef bit<8> t x;
ok typedef bit<8> t; const t c = 1;
ok typedef bit<(4 + 4)> t;
ok typedef bit<n> t;
13@1:13 typedef bit<> t;
13@1:15 typedef bit<8 t;
ok typedef bit t;
ok typedef int<8> t;
13@1:9 typedef t;
ok struct S { }
13@1:10 struct S ;
ok struct S { bit<8> a; bool b; }
13@1:21 struct S { bit<8> a }
13@1:12 struct S { a; }
ok struct S { @name("x") error a; }
13@1:8 struct { }
ok struct key { }
ok header H { bit<8> a; }
13@1:19 header H { bit<8> 8; }
ok header H { } struct S { H[4] s; }
13@1:27 header H { } struct S { H[] s; }
13@1:29 header H { } struct S { H[4 s; }
ok enum E { A, B }
ok enum E { A, B, }
13@1:10 enum E { }
13@1:12 enum E { A B }
13@1:13 enum E { A, , }
ok enum bit<8> E { A = 1, B = 2 }
ok enum E { A = 1 }
13@1:14 enum E { A = }
13@1:6 enum int<8> E { A }
13@1:10 enum bit E { A }
ok error { A, B }
ok error { A, }
13@1:7 error A { B }
13@1:9 error { }
ok action a() { }
ok action a(in bit<8> x, bool y, out error z, inout int w) { }
13@1:17 action a(bool x,) { }
13@1:10 action a { }
13@1:10 action a(x) { }
13@1:12 action a() ;
13@1:13 action a(in out bool x) { }
ok action apply() { }
ok V1Switch(P(), V()) main;
ok V1Switch() main;
13@1:14 V1Switch(P(),) main;
13@1:15 V1Switch(P()) ;
13@1:10 V1Switch main;
13@1:9 V1Switch<H>(P()) main;
ok register<bit<8>>(16) r;
ok parser P() { } V1Switch(P()) main;
13@1:27 parser P() { } V1Switch(P(1)) main;
ok counter(8, CounterType.packets) c;
"#;

/// Parsers and controls, and what is declared in them.
const PARSERS: &str = r#"
ok parser P() {  }
ok parser P() { state s { } }
ok parser P() { state s { transition accept; } }
13@1:35 parser P() { state s { transition ; } }
13@1:42 parser P() { state s { transition accept } }
ok parser P() { state s { x = 1; bit<8> y = 2; } }
ok parser P() { state s { @name("a") x = 1; } }
13@1:43 parser P() { state s { transition accept; x = 1; } }
13@1:14 parser P() { x = 1; }
ok parser P() { bit<8> x; state s { } }
ok parser P() { const int c = 1; }
13@1:20 parser P() { state { } }
13@1:22 parser P() { state s ; }
ok parser P() { state state { } }
13@1:42 parser P() { state s { transition select() { } } }
ok parser P() { state s { transition select(a) { } } }
ok parser P() { state s { transition select(a, b) { (1, 2): s; (3, _): t; } } }
13@1:49 parser P() { state s { transition select(a) { 1 b; } } }
13@1:50 parser P() { state s { transition select(a) { 1: 1; } } }
13@1:42 parser P() { state s { transition select a { } } }
13@1:49 parser P() { state s { transition select(a) { } ; } }
ok parser P(packet_in b, out bool h) { }
13@1:12 parser P() ;
13@1:8 parser () { }
ok control C() { apply { } }
13@1:15 control C() { }
13@1:25 control C() { apply { } x }
13@1:21 control C() { apply ; }
13@1:13 control C() apply { }
ok control C() { action a() { } apply { } }
ok control C() { bit<8> x = 1; apply { } }
ok control C() { const bit<8> x = 1; apply { } }
ok control C() { counter(1, CounterType.packets) c; apply { } }
13@1:26 control C() { counter(1) ; apply { } }
13@1:15 control C() { x = 1; apply { } }
ok control C() { @name("c") counter(1) c; apply { } }
13@1:24 control C() { bit<8> x 1; apply { } }
13@1:22 control C() { counter; apply { } }
ok control C() { register<bit<8>>(4) r; apply { } }
13@1:15 control C() { state s { } apply { } }
"#;

/// Tables and their properties.
const TABLES: &str = r#"
ok control C() { table t {  } apply { } }
ok control C() { table t { key = { a: exact; } actions = { b; c(); } size = 5; } apply { } }
ok control C() { table t { key = { } } apply { } }
13@1:35 control C() { table t { key = { a ; } } apply { } }
13@1:42 control C() { table t { key = { a: exact } } apply { } }
13@1:29 control C() { table t { key { } } apply { } }
13@1:36 control C() { table t { key = { a: 5; } } apply { } }
ok control C() { table t { key = { a: exact @name("x"); } } apply { } }
ok control C() { table t { key = { h.f[3:0]: lpm; a + b: ternary; } } apply { } }
ok control C() { table t { key = { a: key; } } apply { } }
ok control C() { table t { actions = { } } apply { } }
13@1:39 control C() { table t { actions = { b c; } } apply { } }
13@1:39 control C() { table t { actions = { b(1); } } apply { } }
ok control C() { table t { actions = { @tableonly b; @defaultonly c(); } } apply { } }
13@1:37 control C() { table t { actions = { 5; } } apply { } }
ok control C() { table t { actions = { apply; } } apply { } }
13@1:32 control C() { table t { size = ; } apply { } }
13@1:30 control C() { table t { size 5; } apply { } }
ok control C() { table t { const size = 5; } apply { } }
ok control C() { table t { default_action = b(1, 2); } apply { } }
ok control C() { table t { const default_action = b; } apply { } }
13@1:31 control C() { table t { const key = { } } apply { } }
13@1:25 control C() { table t { apply = 5; } apply { } }
13@1:39 control C() { table t { counters = c  } apply { } }
ok control C() { table t { entries = { 1: b(); } } apply { } }
ok control C() { table t { const entries = { (1, 2): b; _: c(5); } } apply { } }
13@1:39 control C() { table t { entries = { 1 b; } } apply { } }
ok control C() { table t { entries = { 1: b() @name("x"); } } apply { } }
13@1:37 control C() { table t { entries = { ; } } apply { } }
ok control C() { table t { entries = { } } apply { } }
ok control C() { table t { const entries = { 1 &&& 2: b(); 3 .. 4: c(); } } apply { } }
ok control C() { table t { @name("x") key = { } } apply { } }
13@1:21 control C() { table { } apply { } }
13@1:23 control C() { table t ; apply { } }
ok control C() { table entries { } apply { } }
"#;

/// Statements.
const STATEMENTS: &str = r#"
ok control C() { apply { ; } }
ok control C() { apply { { } } }
ok control C() { apply { { { } ; } } }
ok control C() { apply { exit; } }
13@1:28 control C() { apply { exit x; } }
ok control C() { apply { return; } }
13@1:30 control C() { apply { return 1; } }
ok control C() { apply { if (a) x = 1; } }
13@1:26 control C() { apply { if a x = 1; } }
13@1:31 control C() { apply { if (a)  } }
ok control C() { apply { if (a) x = 1; else y = 2; } }
ok control C() { apply { if (a) if (b) x = 1; else y = 2; } }
ok control C() { apply { if (a) if (b) x = 1; else y = 2; else z = 3; } }
13@1:68 control C() { apply { if (a) if (b) x = 1; else y = 2; else z = 3; else w = 4; } }
ok control C() { apply { if (a) x = 1; else if (b) y = 2; else z = 3; } }
13@1:23 control C() { apply { else x = 1; } }
13@1:27 control C() { apply { if () x = 1; } }
ok control C() { apply { if (a) { } else { } } }
13@1:30 control C() { apply { if (a) bit<8> x; } }
ok control C() { apply { switch (a) { b: { } default: } } }
ok control C() { apply { switch (a) { b: c: { x = 1; } } } }
ok control C() { apply { switch (a) { } } }
13@1:38 control C() { apply { switch (a) { b { } } } }
13@1:36 control C() { apply { switch (a) { 1: { } } } }
13@1:41 control C() { apply { switch (a) { b: x = 1; } } }
13@1:30 control C() { apply { switch a { } } }
ok control C() { apply { switch (t.apply().action_run) { b: { } } } }
ok control C() { apply { x = 1; } }
13@1:27 control C() { apply { x = ; } }
13@1:25 control C() { apply { x 1; } }
ok control C() { apply { x.y[1].f(2, 3); } }
ok control C() { apply { f(); } }
13@1:25 control C() { apply { f(; } }
ok control C() { apply { x[1:0] = 2; } }
13@1:25 control C() { apply { x.5 = 1; } }
13@1:25 control C() { apply { x[] = 1; } }
13@1:23 control C() { apply { 5 = x; } }
13@1:23 control C() { apply { (x) = 1; } }
13@1:29 control C() { apply { x = 1 } }
ok control C() { apply { f() = 1; } }
ok control C() { apply { x.if = 1; } }
ok control C() { apply { key.entries = state; } }
13@1:23 control C() { apply { apply(); } }
ok control C() { apply { t.apply(); } }
13@1:29 control C() { apply { x = y = z; } }
ok control C() { apply { bit<8> x; } }
ok control C() { apply { bit<8> x = 1; } }
13@1:30 control C() { apply { bit<8> = 1; } }
ok control C() { apply { const bit<8> c = 1; } }
13@1:37 control C() { apply { const bit<8> c; } }
13@1:25 control C() { apply { H s; } }
13@1:30 control C() { apply { counter(1) c; } }
ok control C() { apply { @name("x") x = 1; } }
13@1:35 control C() { apply { @name("x")  } }
"#;

/// Expressions.
const EXPRESSIONS: &str = r#"
ok const int c = a + b * c;
13@1:19 const int c = a + ;
13@1:17 const int c = a b;
ok const int c = !a;
13@1:17 const int c = ! ;
ok const int c = -a;
ok const int c = ~~a;
ok const int c = (a);
ok const int c = (a)(b);
ok const int c = (bit<8>) a;
ok const int c = (bit<8>) -a;
ok const int c = (bit<8>) (a);
13@1:24 const int c = (bit<8>) ;
13@1:19 const int c = (T) a;
ok const int c = (T)(x);
ok const int c = (error) a;
ok const int c = (bool) a;
ok const int c = (int) a;
13@1:18 const int c = (a ;
13@1:16 const int c = ();
ok const int c = ((a));
ok const int c = (bool) (error) a;
ok const int c = (bool) a + b;
ok const int c = -(bool) a;
ok const int c = (bool) a.b;
ok const int c = (a) + b;
ok const int c = (a).b;
ok const int c = (a)[1];
ok const int c = (-a);
ok const int c = (bool[4]) a;
ok const int c = { a, b };
ok const int c = { };
13@1:20 const int c = { a, };
ok const int c = { { a }, { } };
13@1:20 const int c = f(a, );
ok const int c = f(a)(b);
13@1:17 const int c = f(,);
ok const int c = a ? b : c;
13@1:21 const int c = a ? b ;
ok const int c = a ? b : c ? d : e;
ok const int c = a ? b ? c : d : e;
13@1:19 const int c = a ? : b;
ok const int c = a + b ? c - d : e * g;
ok const int c = a == b == c;
ok const int c = a < b > c;
ok const int c = a << 2 >> 3;
ok const int c = a <= b >= c;
ok const int c = a != b;
ok const int c = a & b ^ c | d;
ok const int c = a && b || c;
ok const int c = a ++ b;
ok const int c = a |+| b |-| c;
ok const int c = a / b % c;
ok const int c = a - -b;
13@1:17 const int c = a ! b;
13@1:19 const int c = a + * b;
13@1:17 const int c = a &&& b;
13@1:17 const int c = a .. b;
13@1:15 const int c = _;
13@1:15 const int c = default;
ok const int c = a[1];
ok const int c = a[1:0];
13@1:19 const int c = a[1 2];
13@1:17 const int c = a[:0];
13@1:19 const int c = a[1:];
ok const int c = a.b;
13@1:17 const int c = a.(b);
ok const int c = a.b(c).d;
ok const int c = a.apply().hit;
ok const int c = E.A;
ok const int c = error.A;
13@1:15 const int c = error;
ok const int c = CounterType.packets;
13@1:15 const int c = counter;
ok const int c = a.lookahead;
ok const int c = a.lookahead<bit<8>>();
13@1:27 const int c = a.lookahead<8>();
ok const int c = a.lookahead<bit<8>>;
ok const int c = true;
ok const int c = false;
ok const int c = "s";
ok const int c = 8w255;
13@1:15 const int c = bit<8>;
13@1:15 const int c = apply;
ok const int c = key;
13@1:15 const int c = package;
13@1:15 const int c = if;
ok typedef bool T; const T c = (T) a;
ok typedef bool T; const T c = (T)(x);
13@1:33 typedef bool T; const T c = (T) ;
13@1:29 typedef bool T; const T c = T;
ok struct T { } const bool c = T.a;
"#;

/// The keys of a `select`.
const KEYS: &str = r#"
ok parser P() { state s { transition select(a) { 1: b; } } }
ok parser P() { state s { transition select(a) { _: b; } } }
ok parser P() { state s { transition select(a) { default: b; } } }
ok parser P() { state s { transition select(a) { 1 &&& 2: b; } } }
ok parser P() { state s { transition select(a) { 1 .. 2: b; } } }
ok parser P() { state s { transition select(a) { (1): b; } } }
ok parser P() { state s { transition select(a) { (1, 2): b; } } }
ok parser P() { state s { transition select(a) { (_, default): b; } } }
ok parser P() { state s { transition select(a) { (bit<8>) 1: b; } } }
ok parser P() { state s { transition select(a) { ((1)): b; } } }
ok parser P() { state s { transition select(a) { (1 &&& 2): b; } } }
ok parser P() { state s { transition select(a) { (1 &&& 2, 3 .. 4): b; } } }
ok parser P() { state s { transition select(a) { (1) + 2: b; } } }
ok parser P() { state s { transition select(a) { (1).a: b; } } }
ok parser P() { state s { transition select(a) { (_) + 1: b; } } }
13@1:50 parser P() { state s { transition select(a) { (1,): b; } } }
13@1:48 parser P() { state s { transition select(a) { (): b; } } }
13@1:53 parser P() { state s { transition select(a) { 1 &&& : b; } } }
ok parser P() { state s { transition select(a) { !a: b; } } }
ok parser P() { state s { transition select(a) { -1 &&& 2: b; } } }
13@1:49 parser P() { state s { transition select(a) { _ + 1: b; } } }
13@1:49 parser P() { state s { transition select(a) { _ &&& 1: b; } } }
ok parser P() { state s { transition select(a) { a.b: b; } } }
ok parser P() { state s { transition select(a) { f(1): b; } } }
13@1:51 parser P() { state s { transition select(a) { (T) 1: b; } } }
ok parser P() { state s { transition select(a) { (bool) true &&& 1: b; } } }
ok parser P() { state s { transition select(a) { (1) &&& 2: b; } } }
13@1:54 parser P() { state s { transition select(a) { (1, 2) &&& 3: b; } } }
ok parser P() { state s { transition select(a) { 1 + 2 .. 3: b; } } }
13@1:47 parser P() { state s { transition select(a) { : b; } } }
ok parser P() { state s { transition select(a) { { 1 }: b; } } }
13@1:50 parser P() { state s { transition select(a) { (1 2): b; } } }
ok parser P() { state s { transition select(a) { (default, (1)): b; } } }
ok parser P() { state s { transition select(a) { default_: b; } } }
"#;

/// What is open around a token: 64 forms, and 65. Only tokens before the place of Syntax count.
const DEPTHS: &str = r#"
ok control C() { apply { {{{{{{{{{{{{{{{{{{{{{{{{{{{{{{{{{{{{{{{{{{{{{{{{{{{{{{{{{{{{{{{}}}}}}}}}}}}}}}}}}}}}}}}}}}}}}}}}}}}}}}}}}}}}}}}}}}}}}}}}}}}}}} } }
14@1:86 control C() { apply { {{{{{{{{{{{{{{{{{{{{{{{{{{{{{{{{{{{{{{{{{{{{{{{{{{{{{{{{{{{{{{{{}}}}}}}}}}}}}}}}}}}}}}}}}}}}}}}}}}}}}}}}}}}}}}}}}}}}}}}}}}}}}}}} } }
ok const int c = ((((((((((((((((((((((((((((((((((((((((((((((((((((((((((((((((1))))))))))))))))))))))))))))))))))))))))))))))))))))))))))))))));
14@1:80 const int c = (((((((((((((((((((((((((((((((((((((((((((((((((((((((((((((((((1)))))))))))))))))))))))))))))))))))))))))))))))))))))))))))))))));
ok const int c = ~~~~~~~~~~~~~~~~~~~~~~~~~~~~~~~~~~~~~~~~~~~~~~~~~~~~~~~~~~~~~~~~1;
14@1:80 const int c = ~~~~~~~~~~~~~~~~~~~~~~~~~~~~~~~~~~~~~~~~~~~~~~~~~~~~~~~~~~~~~~~~~1;
ok const int c = (bool)(bool)(bool)(bool)(bool)(bool)(bool)(bool)(bool)(bool)(bool)(bool)(bool)(bool)(bool)(bool)(bool)(bool)(bool)(bool)(bool)(bool)(bool)(bool)(bool)(bool)(bool)(bool)(bool)(bool)(bool)(bool)(bool)(bool)(bool)(bool)(bool)(bool)(bool)(bool)(bool)(bool)(bool)(bool)(bool)(bool)(bool)(bool)(bool)(bool)(bool)(bool)(bool)(bool)(bool)(bool)(bool)(bool)(bool)(bool)(bool)(bool)(bool)(bool)1;
14@1:400 const int c = (bool)(bool)(bool)(bool)(bool)(bool)(bool)(bool)(bool)(bool)(bool)(bool)(bool)(bool)(bool)(bool)(bool)(bool)(bool)(bool)(bool)(bool)(bool)(bool)(bool)(bool)(bool)(bool)(bool)(bool)(bool)(bool)(bool)(bool)(bool)(bool)(bool)(bool)(bool)(bool)(bool)(bool)(bool)(bool)(bool)(bool)(bool)(bool)(bool)(bool)(bool)(bool)(bool)(bool)(bool)(bool)(bool)(bool)(bool)(bool)(bool)(bool)(bool)(bool)(bool)1;
ok const int c = a?b:a?b:a?b:a?b:a?b:a?b:a?b:a?b:a?b:a?b:a?b:a?b:a?b:a?b:a?b:a?b:a?b:a?b:a?b:a?b:a?b:a?b:a?b:a?b:a?b:a?b:a?b:a?b:a?b:a?b:a?b:a?b:a?b:a?b:a?b:a?b:a?b:a?b:a?b:a?b:a?b:a?b:a?b:a?b:a?b:a?b:a?b:a?b:a?b:a?b:a?b:a?b:a?b:a?b:a?b:a?b:a?b:a?b:a?b:a?b:a?b:a?b:a?b:a?b:c;
14@1:273 const int c = a?b:a?b:a?b:a?b:a?b:a?b:a?b:a?b:a?b:a?b:a?b:a?b:a?b:a?b:a?b:a?b:a?b:a?b:a?b:a?b:a?b:a?b:a?b:a?b:a?b:a?b:a?b:a?b:a?b:a?b:a?b:a?b:a?b:a?b:a?b:a?b:a?b:a?b:a?b:a?b:a?b:a?b:a?b:a?b:a?b:a?b:a?b:a?b:a?b:a?b:a?b:a?b:a?b:a?b:a?b:a?b:a?b:a?b:a?b:a?b:a?b:a?b:a?b:a?b:a?b:c;
ok const int c = a?a?a?a?a?a?a?a?a?a?a?a?a?a?a?a?a?a?a?a?a?a?a?a?a?a?a?a?a?a?a?a?a?a?a?a?a?a?a?a?a?a?a?a?a?a?a?a?a?a?a?a?a?a?a?a?a?a?a?a?a?a?a?a?a:b:b:b:b:b:b:b:b:b:b:b:b:b:b:b:b:b:b:b:b:b:b:b:b:b:b:b:b:b:b:b:b:b:b:b:b:b:b:b:b:b:b:b:b:b:b:b:b:b:b:b:b:b:b:b:b:b:b:b:b:b:b:b:b;
14@1:145 const int c = a?a?a?a?a?a?a?a?a?a?a?a?a?a?a?a?a?a?a?a?a?a?a?a?a?a?a?a?a?a?a?a?a?a?a?a?a?a?a?a?a?a?a?a?a?a?a?a?a?a?a?a?a?a?a?a?a?a?a?a?a?a?a?a?a?a:b:b:b:b:b:b:b:b:b:b:b:b:b:b:b:b:b:b:b:b:b:b:b:b:b:b:b:b:b:b:b:b:b:b:b:b:b:b:b:b:b:b:b:b:b:b:b:b:b:b:b:b:b:b:b:b:b:b:b:b:b:b:b:b:b;
ok control C() { apply { if(a)if(a)if(a)if(a)if(a)if(a)if(a)if(a)if(a)if(a)if(a)if(a)if(a)if(a)if(a)if(a)if(a)if(a)if(a)if(a)if(a)if(a)if(a)if(a)if(a)if(a)if(a)if(a)if(a)if(a)if(a)if(a)if(a)if(a)if(a)if(a)if(a)if(a)if(a)if(a)if(a)if(a)if(a)if(a)if(a)if(a)if(a)if(a)if(a)if(a)if(a)if(a)if(a)if(a)if(a)if(a)if(a)if(a)if(a)if(a)if(a)if(a); } }
14@1:336 control C() { apply { if(a)if(a)if(a)if(a)if(a)if(a)if(a)if(a)if(a)if(a)if(a)if(a)if(a)if(a)if(a)if(a)if(a)if(a)if(a)if(a)if(a)if(a)if(a)if(a)if(a)if(a)if(a)if(a)if(a)if(a)if(a)if(a)if(a)if(a)if(a)if(a)if(a)if(a)if(a)if(a)if(a)if(a)if(a)if(a)if(a)if(a)if(a)if(a)if(a)if(a)if(a)if(a)if(a)if(a)if(a)if(a)if(a)if(a)if(a)if(a)if(a)if(a)if(a); } }
ok control C() { apply { if(a);else if(a);else if(a);else if(a);else if(a);else if(a);else if(a);else if(a);else if(a);else if(a);else if(a);else if(a);else if(a);else if(a);else if(a);else if(a);else if(a);else if(a);else if(a);else if(a);else if(a);else if(a);else if(a);else if(a);else if(a);else if(a);else if(a);else if(a);else if(a);else if(a);else if(a);else if(a);else if(a);else if(a);else if(a);else if(a);else if(a);else if(a);else if(a);else if(a);else if(a);else if(a);else if(a);else if(a);else if(a);else if(a);else if(a);else if(a);else if(a);else if(a);else if(a);else if(a);else if(a);else if(a);else if(a);else if(a);else if(a);else if(a);else if(a);else if(a);else if(a);else if(a); } }
14@1:708 control C() { apply { if(a);else if(a);else if(a);else if(a);else if(a);else if(a);else if(a);else if(a);else if(a);else if(a);else if(a);else if(a);else if(a);else if(a);else if(a);else if(a);else if(a);else if(a);else if(a);else if(a);else if(a);else if(a);else if(a);else if(a);else if(a);else if(a);else if(a);else if(a);else if(a);else if(a);else if(a);else if(a);else if(a);else if(a);else if(a);else if(a);else if(a);else if(a);else if(a);else if(a);else if(a);else if(a);else if(a);else if(a);else if(a);else if(a);else if(a);else if(a);else if(a);else if(a);else if(a);else if(a);else if(a);else if(a);else if(a);else if(a);else if(a);else if(a);else if(a);else if(a);else if(a);else if(a);else if(a); } }
ok typedef register<register<register<register<register<register<register<register<register<register<register<register<register<register<register<register<register<register<register<register<register<register<register<register<register<register<register<register<register<register<register<register<register<register<register<register<register<register<register<register<register<register<register<register<register<register<register<register<register<register<register<register<register<register<register<register<register<register<register<register<register<register<register<register<bool>>>>>>>>>>>>>>>>>>>>>>>>>>>>>>>>>>>>>>>>>>>>>>>>>>>>>>>>>>>>>>>> t;
14@1:594 typedef register<register<register<register<register<register<register<register<register<register<register<register<register<register<register<register<register<register<register<register<register<register<register<register<register<register<register<register<register<register<register<register<register<register<register<register<register<register<register<register<register<register<register<register<register<register<register<register<register<register<register<register<register<register<register<register<register<register<register<register<register<register<register<register<register<bool>>>>>>>>>>>>>>>>>>>>>>>>>>>>>>>>>>>>>>>>>>>>>>>>>>>>>>>>>>>>>>>>> t;
ok const int c = a[a[a[a[a[a[a[a[a[a[a[a[a[a[a[a[a[a[a[a[a[a[a[a[a[a[a[a[a[a[a[a[a[a[a[a[a[a[a[a[a[a[a[a[a[a[a[a[a[a[a[a[a[a[a[a[a[a[a[a[a[a[a[a[1]]]]]]]]]]]]]]]]]]]]]]]]]]]]]]]]]]]]]]]]]]]]]]]]]]]]]]]]]]]]]]]];
14@1:145 const int c = a[a[a[a[a[a[a[a[a[a[a[a[a[a[a[a[a[a[a[a[a[a[a[a[a[a[a[a[a[a[a[a[a[a[a[a[a[a[a[a[a[a[a[a[a[a[a[a[a[a[a[a[a[a[a[a[a[a[a[a[a[a[a[a[a[1]]]]]]]]]]]]]]]]]]]]]]]]]]]]]]]]]]]]]]]]]]]]]]]]]]]]]]]]]]]]]]]]];
ok const int c = {{{{{{{{{{{{{{{{{{{{{{{{{{{{{{{{{{{{{{{{{{{{{{{{{{{{{{{{{{{{{{{{1}}}}}}}}}}}}}}}}}}}}}}}}}}}}}}}}}}}}}}}}}}}}}}}}}}}}}}}}}}}}}}}};
14@1:80 const int c = {{{{{{{{{{{{{{{{{{{{{{{{{{{{{{{{{{{{{{{{{{{{{{{{{{{{{{{{{{{{{{{{{1}}}}}}}}}}}}}}}}}}}}}}}}}}}}}}}}}}}}}}}}}}}}}}}}}}}}}}}}}}}}}}}}};
ok const int c = f(f(f(f(f(f(f(f(f(f(f(f(f(f(f(f(f(f(f(f(f(f(f(f(f(f(f(f(f(f(f(f(f(f(f(f(f(f(f(f(f(f(f(f(f(f(f(f(f(f(f(f(f(f(f(f(f(f(f(f(f(f(f(f(1))))))))))))))))))))))))))))))))))))))))))))))))))))))))))))))));
14@1:145 const int c = f(f(f(f(f(f(f(f(f(f(f(f(f(f(f(f(f(f(f(f(f(f(f(f(f(f(f(f(f(f(f(f(f(f(f(f(f(f(f(f(f(f(f(f(f(f(f(f(f(f(f(f(f(f(f(f(f(f(f(f(f(f(f(f(f(1)))))))))))))))))))))))))))))))))))))))))))))))))))))))))))))))));
ok const int c = (~(~(~(~(~(~(~(~(~(~(~(~(~(~(~(~(~(~(~(~(~(~(~(~(~(~(~(~(~(~(~(~1))))))))))))))))))))))))))))))));
14@1:80 const int c = (~(~(~(~(~(~(~(~(~(~(~(~(~(~(~(~(~(~(~(~(~(~(~(~(~(~(~(~(~(~(~(~(~1)))))))))))))))))))))))))))))))));
ok parser P() { state s { transition select(a) { (((((((((((((((((((((((((((((((((((((((((((((((((((((((((((((1))))))))))))))))))))))))))))))))))))))))))))))))))))))))))))): b; } } }
14@1:109 parser P() { state s { transition select(a) { ((((((((((((((((((((((((((((((((((((((((((((((((((((((((((((((1)))))))))))))))))))))))))))))))))))))))))))))))))))))))))))))): b; } } }
13@1:80 const int c = ((((((((((((((((((((((((((((((((((((((((((((((((((((((((((((((((()))))))))))))))))))))))))))))))))))))))))))))))))))))))))))))))));
14@1:80 const int c = (((((((((((((((((((((((((((((((((((((((((((((((((((((((((((((((((1 2)))))))))))))))))))))))))))))))))))))))))))))))))))))))))))))))));
"#;

/// What the reading answers.
fn answer(alloc: Global, source: &str) -> Result<String, AllocError> {
    match read_source(alloc, source) {
        Ok(()) => format!(in alloc; "ok"),
        Err(Fault::Refused(refusal)) => {
            let (number, line, column) = (refusal.code.number(), refusal.line, refusal.column);
            format!(in alloc; "{number}@{line}:{column}")
        }
        Err(Fault::Memory(fault)) => Err(fault),
    }
}

fn read_source(alloc: Global, source: &str) -> Result<(), Fault> {
    if source.len() > LONGEST {
        return Ok(());
    }
    let tokens = scan(alloc, source.as_bytes())?;
    read(alloc, &tokens)?;
    Ok(())
}

/// What is told of a line: nothing where the answer is the wanted one.
fn told(alloc: Global, line: &str) -> Result<String, AllocError> {
    let Some((wanted, source)) = line.split_once(' ') else {
        return format!(in alloc; "");
    };
    let got = answer(alloc, source)?;
    if got.as_str() == wanted {
        return format!(in alloc; "");
    }
    let got = got.as_str();
    format!(in alloc; "{got} for {wanted}: {source}")
}

#[test]
fn sources_have_a_tree_or_are_refused_at_their_place(rt: HostRuntime) -> Result<(), Fail> {
    for table in [
        DECLARATIONS,
        PARSERS,
        TABLES,
        STATEMENTS,
        EXPRESSIONS,
        KEYS,
        DEPTHS,
    ] {
        for line in table.lines() {
            let told = told(rt.alloc(), line)?;
            assert_eq!(rt; told.as_str(), "");
        }
    }
    Ok(())
}
