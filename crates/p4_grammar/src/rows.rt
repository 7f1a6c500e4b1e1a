//! The rows of the grammar, by subject.

ghost use Rattle.std.specs.Prelude.{◌≡◌, IfOk, map};
ghost use Rattle.p4_grammar.specs.Rows.{row_of, top_rows, types_rows, expressions_rows, operations_rows, keys_rows, statements_rows, parser_rows, control_rows, tables_rows, grammar_rows};

use crate::symbols::*;
use ll1_engine::{Row, Rows, Symbol, Symbols};
use std::alloc::{AllocError, Global};

/// A row as it is written.
#[derive(Clone, Copy)]
pub struct Production<'a> {
    pub left: Symbol,
    pub right: &'a [Symbol],
    pub rank: u32,
}

/// Rows as `LEFT => SYMBOL ..;`, and `/ 1` before the `;` of one with a rank.
macro_rules! productions {
    ($($left:ident => $($right:ident)* $(/ $rank:literal)?;)*) => {
        [$(Production {
            left: $left,
            right: &[$($right),*],
            rank: 0 $(+ $rank)?,
        }),*]
    };
}

/// The rows as a table takes them.
fn rows_of(alloc: Global, productions: &[Production]) -> Result<Rows, AllocError>
    ensures { IfOk result (λ rows. rows ≡ map row_of productions.now) }
{
    let mut rows = Vec::new(alloc);
    for production in productions {
        let right = Symbols::from_slice(alloc, production.right)?;
        rows.push(Row {
            left: production.left,
            right,
            rank: production.rank,
        })?;
    }
    Ok(Rows::from_vec(rows))
}

/// All rows.
#[tactic(auto, unfolding(crate::specs::Rows::grammar_rows))]
pub(crate) fn grammar_rows(alloc: Global) -> Result<Rows, AllocError>
    ensures { IfOk result (λ rows. rows ≡ grammar_rows) }
{
    let mut rows = top_rows(alloc)?;
    rows.append(types_rows(alloc)?)?;
    rows.append(expressions_rows(alloc)?)?;
    rows.append(operations_rows(alloc)?)?;
    rows.append(keys_rows(alloc)?)?;
    rows.append(statements_rows(alloc)?)?;
    rows.append(parser_rows(alloc)?)?;
    rows.append(control_rows(alloc)?)?;
    rows.append(tables_rows(alloc)?)?;
    Ok(rows)
}

/// Declarations at the top of a program, and what several kinds of declarations share.
#[tactic(auto, unfolding(crate::specs::Rows::top_rows))]
fn top_rows(alloc: Global) -> Result<Rows, AllocError>
    ensures { IfOk result (λ rows. rows ≡ top_rows) }
{
    let productions = productions! {
        PROGRAM =>;
        PROGRAM => SIGN_SEMICOLON PROGRAM;
        PROGRAM => ANNOTATIONS DECLARATION PROGRAM;
        ANNOTATIONS =>;
        ANNOTATIONS => NAMED ANNOTATIONS;
        ANNOTATIONS => DEFAULT_ONLY ANNOTATIONS;
        ANNOTATIONS => TABLE_ONLY ANNOTATIONS;
        DECLARATION => CONSTANT;
        DECLARATION => KEYWORD_TYPEDEF TYPE_FORM NAME SIGN_SEMICOLON;
        DECLARATION => KEYWORD_STRUCT NAME FIELDS;
        DECLARATION => KEYWORD_HEADER NAME FIELDS;
        DECLARATION => ENUMERATION;
        DECLARATION => KEYWORD_ERROR MEMBERS;
        DECLARATION => ACTION;
        DECLARATION => PARSER;
        DECLARATION => CONTROL;
        DECLARATION => TYPE_NAME TYPE_ARGUMENTS INSTANCE_ARGUMENTS NAME SIGN_SEMICOLON;
        FIELDS => SIGN_LEFT_BRACE FIELDS_LIST SIGN_RIGHT_BRACE;
        FIELDS_LIST =>;
        FIELDS_LIST => ANNOTATIONS TYPE_FORM NAME SIGN_SEMICOLON FIELDS_LIST;
        ENUMERATION => KEYWORD_ENUM ENUMERATION_WIDTH NAME MEMBERS;
        ENUMERATION_WIDTH =>;
        ENUMERATION_WIDTH => KEYWORD_BIT OPEN_ARGUMENTS WIDTH CLOSE_ARGUMENTS;
        MEMBERS => SIGN_LEFT_BRACE MEMBER MEMBERS_TAIL SIGN_RIGHT_BRACE;
        MEMBERS_TAIL =>;
        MEMBERS_TAIL => SIGN_COMMA MEMBERS_MORE;
        MEMBERS_MORE =>;
        MEMBERS_MORE => MEMBER MEMBERS_TAIL;
        MEMBER => NAME INITIAL_VALUE;
        INITIAL_VALUE =>;
        INITIAL_VALUE => SIGN_ASSIGN EXPRESSION;
        CONSTANT => KEYWORD_CONST TYPE_FORM NAME SIGN_ASSIGN EXPRESSION SIGN_SEMICOLON;
        ACTION => KEYWORD_ACTION NAME PARAMETERS BLOCK;
        PARAMETERS => SIGN_LEFT_PAREN PARAMETERS_LIST SIGN_RIGHT_PAREN;
        PARAMETERS_LIST =>;
        PARAMETERS_LIST => PARAMETER PARAMETERS_TAIL;
        PARAMETERS_TAIL =>;
        PARAMETERS_TAIL => SIGN_COMMA PARAMETER PARAMETERS_TAIL;
        PARAMETER => ANNOTATIONS DIRECTION TYPE_FORM NAME;
        DIRECTION =>;
        DIRECTION => KEYWORD_IN;
        DIRECTION => KEYWORD_OUT;
        DIRECTION => KEYWORD_INOUT;
    };
    rows_of(alloc, &productions)
}

/// Types and names.
#[tactic(auto, unfolding(crate::specs::Rows::types_rows))]
fn types_rows(alloc: Global) -> Result<Rows, AllocError>
    ensures { IfOk result (λ rows. rows ≡ types_rows) }
{
    let productions = productions! {
        TYPE_FORM => BASE_TYPE STACK_SIZE;
        STACK_SIZE =>;
        STACK_SIZE => SIGN_LEFT_BRACKET EXPRESSION SIGN_RIGHT_BRACKET;
        BASE_TYPE => KEYWORD_BIT WIDTH_ARGUMENTS;
        BASE_TYPE => KEYWORD_INT WIDTH_ARGUMENTS;
        BASE_TYPE => KEYWORD_BOOL;
        BASE_TYPE => KEYWORD_ERROR;
        BASE_TYPE => TYPE_NAME TYPE_ARGUMENTS;
        WIDTH_ARGUMENTS =>;
        WIDTH_ARGUMENTS => OPEN_ARGUMENTS WIDTH CLOSE_ARGUMENTS;
        TYPE_ARGUMENTS =>;
        TYPE_ARGUMENTS => OPEN_ARGUMENTS TYPE_FORM CLOSE_ARGUMENTS;
        WIDTH => INT_LITERAL;
        WIDTH => WORD;
        WIDTH => SIGN_LEFT_PAREN EXPRESSION SIGN_RIGHT_PAREN;
        WORD => ID;
        WORD => KEYWORD_KEY;
        WORD => KEYWORD_ACTIONS;
        WORD => KEYWORD_ENTRIES;
        WORD => KEYWORD_STATE;
        NAME => WORD;
        NAME => TYPE_NAME;
        NAME => KEYWORD_APPLY;
    };
    rows_of(alloc, &productions)
}

/// Expressions.
#[tactic(auto, unfolding(crate::specs::Rows::expressions_rows))]
fn expressions_rows(alloc: Global) -> Result<Rows, AllocError>
    ensures { IfOk result (λ rows. rows ≡ expressions_rows) }
{
    let productions = productions! {
        EXPRESSIONS => EXPRESSION EXPRESSIONS_TAIL;
        EXPRESSIONS_TAIL =>;
        EXPRESSIONS_TAIL => SIGN_COMMA EXPRESSION EXPRESSIONS_TAIL;
        OPTIONAL_EXPRESSIONS =>;
        OPTIONAL_EXPRESSIONS => EXPRESSIONS;
        EXPRESSION => UNARY OPERATIONS;
        UNARY => UNARY_OPERATOR UNARY;
        UNARY => ATOM POSTFIX_PARTS;
        UNARY => SIGN_LEFT_PAREN PARENTHESIS;
        UNARY_OPERATOR => SIGN_NOT;
        UNARY_OPERATOR => SIGN_TILDE;
        UNARY_OPERATOR => SIGN_MINUS;
        PARENTHESIS => TYPE_FORM SIGN_RIGHT_PAREN UNARY;
        PARENTHESIS => EXPRESSION SIGN_RIGHT_PAREN POSTFIX_PARTS;
        ATOM => INT_LITERAL;
        ATOM => TEXT;
        ATOM => KEYWORD_TRUE;
        ATOM => KEYWORD_FALSE;
        ATOM => WORD;
        ATOM => BASE;
        ATOM => SIGN_LEFT_BRACE OPTIONAL_EXPRESSIONS SIGN_RIGHT_BRACE;
        POSTFIX_PARTS =>;
        POSTFIX_PARTS => SIGN_DOT MEMBER_PART POSTFIX_PARTS;
        POSTFIX_PARTS => SIGN_LEFT_BRACKET EXPRESSION SLICE_END SIGN_RIGHT_BRACKET POSTFIX_PARTS;
        POSTFIX_PARTS => SIGN_LEFT_PAREN OPTIONAL_EXPRESSIONS SIGN_RIGHT_PAREN POSTFIX_PARTS;
        MEMBER_PART => ID;
        MEMBER_PART => LOOKAHEAD OPEN_ARGUMENTS TYPE_FORM CLOSE_ARGUMENTS;
        SLICE_END =>;
        SLICE_END => SIGN_COLON EXPRESSION;
        OPERATIONS => PRODUCTS SUMS SHIFTS CONJUNCTIONS EXCLUSIONS DISJUNCTIONS ORDERS EQUALITIES ANDS ORS CHOICE;
        CHOICE =>;
        CHOICE => SIGN_QUESTION EXPRESSION SIGN_COLON EXPRESSION;
    };
    rows_of(alloc, &productions)
}

/// Operators in a row, by level.
#[tactic(auto, unfolding(crate::specs::Rows::operations_rows))]
fn operations_rows(alloc: Global) -> Result<Rows, AllocError>
    ensures { IfOk result (λ rows. rows ≡ operations_rows) }
{
    let productions = productions! {
        PRODUCTS =>;
        PRODUCTS => PRODUCT_OPERATOR UNARY PRODUCTS;
        PRODUCT_OPERATOR => SIGN_STAR;
        PRODUCT_OPERATOR => SIGN_SLASH;
        PRODUCT_OPERATOR => SIGN_PERCENT;
        SUMS =>;
        SUMS => SUM_OPERATOR UNARY PRODUCTS SUMS;
        SUM_OPERATOR => SIGN_PLUS;
        SUM_OPERATOR => SIGN_MINUS;
        SUM_OPERATOR => SIGN_SATURATING_PLUS;
        SUM_OPERATOR => SIGN_SATURATING_MINUS;
        SUM_OPERATOR => SIGN_CONCAT;
        SHIFTS =>;
        SHIFTS => SHIFT_OPERATOR UNARY PRODUCTS SUMS SHIFTS;
        SHIFT_OPERATOR => SIGN_SHIFT_LEFT;
        SHIFT_OPERATOR => SIGN_SHIFT_RIGHT;
        CONJUNCTIONS =>;
        CONJUNCTIONS => SIGN_AMPERSAND UNARY PRODUCTS SUMS SHIFTS CONJUNCTIONS;
        EXCLUSIONS =>;
        EXCLUSIONS => SIGN_CARET UNARY PRODUCTS SUMS SHIFTS CONJUNCTIONS EXCLUSIONS;
        DISJUNCTIONS =>;
        DISJUNCTIONS => SIGN_BAR UNARY PRODUCTS SUMS SHIFTS CONJUNCTIONS EXCLUSIONS DISJUNCTIONS;
        ORDERS =>;
        ORDERS => ORDER_OPERATOR UNARY PRODUCTS SUMS SHIFTS CONJUNCTIONS EXCLUSIONS DISJUNCTIONS ORDERS;
        ORDER_OPERATOR => SIGN_LESS;
        ORDER_OPERATOR => SIGN_AT_MOST;
        ORDER_OPERATOR => SIGN_GREATER;
        ORDER_OPERATOR => SIGN_AT_LEAST;
        EQUALITIES =>;
        EQUALITIES => EQUALITY_OPERATOR UNARY PRODUCTS SUMS SHIFTS CONJUNCTIONS EXCLUSIONS DISJUNCTIONS ORDERS EQUALITIES;
        EQUALITY_OPERATOR => SIGN_EQUAL;
        EQUALITY_OPERATOR => SIGN_NOT_EQUAL;
        ANDS =>;
        ANDS => SIGN_AND UNARY PRODUCTS SUMS SHIFTS CONJUNCTIONS EXCLUSIONS DISJUNCTIONS ORDERS EQUALITIES ANDS;
        ORS =>;
        ORS => SIGN_OR UNARY PRODUCTS SUMS SHIFTS CONJUNCTIONS EXCLUSIONS DISJUNCTIONS ORDERS EQUALITIES ANDS ORS;
    };
    rows_of(alloc, &productions)
}

/// Key sets.
#[tactic(auto, unfolding(crate::specs::Rows::keys_rows))]
fn keys_rows(alloc: Global) -> Result<Rows, AllocError>
    ensures { IfOk result (λ rows. rows ≡ keys_rows) }
{
    let productions = productions! {
        KEY_SET => KEYWORD_DEFAULT;
        KEY_SET => SIGN_UNDERSCORE;
        KEY_SET => UNARY_OPERATOR UNARY OPERATIONS MASK;
        KEY_SET => ATOM POSTFIX_PARTS OPERATIONS MASK;
        KEY_SET => SIGN_LEFT_PAREN KEY_PARENTHESIS;
        KEY_PARENTHESIS => TYPE_FORM SIGN_RIGHT_PAREN UNARY OPERATIONS MASK;
        KEY_PARENTHESIS => SIMPLE_KEY KEY_PARENTHESIS_REST;
        KEY_PARENTHESIS_REST => SIGN_COMMA SIMPLE_KEY KEY_PARENTHESIS_TAIL SIGN_RIGHT_PAREN;
        KEY_PARENTHESIS_REST => SIGN_RIGHT_PAREN POSTFIX_PARTS OPERATIONS MASK;
        KEY_PARENTHESIS_TAIL =>;
        KEY_PARENTHESIS_TAIL => SIGN_COMMA SIMPLE_KEY KEY_PARENTHESIS_TAIL;
        SIMPLE_KEY => KEYWORD_DEFAULT;
        SIMPLE_KEY => SIGN_UNDERSCORE;
        SIMPLE_KEY => EXPRESSION MASK;
        MASK =>;
        MASK => SIGN_MASK EXPRESSION;
        MASK => SIGN_RANGE EXPRESSION;
    };
    rows_of(alloc, &productions)
}

/// Variables, blocks and statements.
#[tactic(auto, unfolding(crate::specs::Rows::statements_rows))]
fn statements_rows(alloc: Global) -> Result<Rows, AllocError>
    ensures { IfOk result (λ rows. rows ≡ statements_rows) }
{
    let productions = productions! {
        VARIABLE => CONSTANT;
        VARIABLE => TYPE_FORM NAME INITIAL_VALUE SIGN_SEMICOLON;
        BLOCK => SIGN_LEFT_BRACE BLOCK_PARTS SIGN_RIGHT_BRACE;
        BLOCK_PARTS =>;
        BLOCK_PARTS => ANNOTATIONS BLOCK_PART BLOCK_PARTS;
        BLOCK_PART => STATEMENT;
        BLOCK_PART => VARIABLE;
        STATEMENT => SIGN_SEMICOLON;
        STATEMENT => BLOCK;
        STATEMENT => KEYWORD_EXIT SIGN_SEMICOLON;
        STATEMENT => KEYWORD_RETURN SIGN_SEMICOLON;
        STATEMENT => KEYWORD_IF SIGN_LEFT_PAREN EXPRESSION SIGN_RIGHT_PAREN STATEMENT ELSE_BRANCH;
        STATEMENT => KEYWORD_SWITCH SIGN_LEFT_PAREN EXPRESSION SIGN_RIGHT_PAREN SIGN_LEFT_BRACE SWITCH_CASES SIGN_RIGHT_BRACE;
        STATEMENT => WORD POSTFIX_PARTS STATEMENT_REST;
        ELSE_BRANCH =>;
        ELSE_BRANCH => KEYWORD_ELSE STATEMENT / 1;
        SWITCH_CASES =>;
        SWITCH_CASES => SWITCH_LABEL SIGN_COLON SWITCH_BODY SWITCH_CASES;
        SWITCH_LABEL => NAME;
        SWITCH_LABEL => KEYWORD_DEFAULT;
        SWITCH_BODY =>;
        SWITCH_BODY => BLOCK;
        STATEMENT_REST => SIGN_ASSIGN EXPRESSION SIGN_SEMICOLON;
        STATEMENT_REST => SIGN_SEMICOLON;
    };
    rows_of(alloc, &productions)
}

/// Parsers and states.
#[tactic(auto, unfolding(crate::specs::Rows::parser_rows))]
fn parser_rows(alloc: Global) -> Result<Rows, AllocError>
    ensures { IfOk result (λ rows. rows ≡ parser_rows) }
{
    let productions = productions! {
        PARSER => KEYWORD_PARSER NAME PARAMETERS SIGN_LEFT_BRACE PARSER_PARTS SIGN_RIGHT_BRACE;
        PARSER_PARTS =>;
        PARSER_PARTS => ANNOTATIONS PARSER_PART PARSER_PARTS;
        PARSER_PART => VARIABLE;
        PARSER_PART => STATE;
        STATE => KEYWORD_STATE NAME SIGN_LEFT_BRACE STATE_PARTS STATE_END SIGN_RIGHT_BRACE;
        STATE_PARTS =>;
        STATE_PARTS => ANNOTATIONS STATE_PART STATE_PARTS;
        STATE_PART => STATEMENT;
        STATE_PART => VARIABLE;
        STATE_END =>;
        STATE_END => TRANSITION;
        TRANSITION => KEYWORD_TRANSITION TRANSITION_TARGET;
        TRANSITION_TARGET => NAME SIGN_SEMICOLON;
        TRANSITION_TARGET => KEYWORD_SELECT SIGN_LEFT_PAREN EXPRESSIONS SIGN_RIGHT_PAREN SIGN_LEFT_BRACE SELECT_CASES SIGN_RIGHT_BRACE;
        SELECT_CASES =>;
        SELECT_CASES => KEY_SET SIGN_COLON NAME SIGN_SEMICOLON SELECT_CASES;
    };
    rows_of(alloc, &productions)
}

/// Controls and instances.
#[tactic(auto, unfolding(crate::specs::Rows::control_rows))]
fn control_rows(alloc: Global) -> Result<Rows, AllocError>
    ensures { IfOk result (λ rows. rows ≡ control_rows) }
{
    let productions = productions! {
        CONTROL => KEYWORD_CONTROL NAME PARAMETERS SIGN_LEFT_BRACE CONTROL_PARTS KEYWORD_APPLY BLOCK SIGN_RIGHT_BRACE;
        CONTROL_PARTS =>;
        CONTROL_PARTS => ANNOTATIONS LOCAL CONTROL_PARTS;
        LOCAL => CONSTANT;
        LOCAL => ACTION;
        LOCAL => TABLE;
        LOCAL => TYPE_FORM LOCAL_REST;
        LOCAL_REST => NAME INITIAL_VALUE SIGN_SEMICOLON;
        LOCAL_REST => INSTANCE_ARGUMENTS NAME SIGN_SEMICOLON;
        INSTANCE_ARGUMENTS => SIGN_LEFT_PAREN INSTANCE_ARGUMENTS_LIST SIGN_RIGHT_PAREN;
        INSTANCE_ARGUMENTS_LIST =>;
        INSTANCE_ARGUMENTS_LIST => INSTANCE_ARGUMENT INSTANCE_ARGUMENTS_TAIL;
        INSTANCE_ARGUMENTS_TAIL =>;
        INSTANCE_ARGUMENTS_TAIL => SIGN_COMMA INSTANCE_ARGUMENT INSTANCE_ARGUMENTS_TAIL;
        INSTANCE_ARGUMENT => TYPE_NAME SIGN_LEFT_PAREN SIGN_RIGHT_PAREN;
        INSTANCE_ARGUMENT => EXPRESSION;
    };
    rows_of(alloc, &productions)
}

/// Tables and their properties.
#[tactic(auto, unfolding(crate::specs::Rows::tables_rows))]
fn tables_rows(alloc: Global) -> Result<Rows, AllocError>
    ensures { IfOk result (λ rows. rows ≡ tables_rows) }
{
    let productions = productions! {
        TABLE => KEYWORD_TABLE NAME SIGN_LEFT_BRACE TABLE_PROPERTIES SIGN_RIGHT_BRACE;
        TABLE_PROPERTIES =>;
        TABLE_PROPERTIES => ANNOTATIONS PROPERTY TABLE_PROPERTIES;
        PROPERTY => KEYWORD_KEY SIGN_ASSIGN SIGN_LEFT_BRACE KEYS SIGN_RIGHT_BRACE;
        PROPERTY => KEYWORD_ACTIONS SIGN_ASSIGN SIGN_LEFT_BRACE LISTED_ACTIONS SIGN_RIGHT_BRACE;
        PROPERTY => CONSTANCY PROPERTY_VALUE;
        KEYS =>;
        KEYS => EXPRESSION SIGN_COLON WORD ANNOTATIONS SIGN_SEMICOLON KEYS;
        LISTED_ACTIONS =>;
        LISTED_ACTIONS => ANNOTATIONS NAME EMPTY_CALL SIGN_SEMICOLON LISTED_ACTIONS;
        EMPTY_CALL =>;
        EMPTY_CALL => SIGN_LEFT_PAREN SIGN_RIGHT_PAREN;
        CONSTANCY =>;
        CONSTANCY => KEYWORD_CONST;
        PROPERTY_VALUE => ID SIGN_ASSIGN EXPRESSION SIGN_SEMICOLON;
        PROPERTY_VALUE => KEYWORD_ENTRIES SIGN_ASSIGN SIGN_LEFT_BRACE ENTRIES SIGN_RIGHT_BRACE;
        ENTRIES =>;
        ENTRIES => KEY_SET SIGN_COLON EXPRESSION ANNOTATIONS SIGN_SEMICOLON ENTRIES;
    };
    rows_of(alloc, &productions)
}
