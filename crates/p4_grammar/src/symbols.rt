//! The symbols of the grammar: the forms, of which the first is the start, and the words.

use ll1_engine::Symbol;

// Forms: declarations at the top of a program, and what several kinds of declarations share.
pub const PROGRAM: Symbol = 0;

pub const ANNOTATIONS: Symbol = 1;

pub const DECLARATION: Symbol = 2;

pub const FIELDS: Symbol = 3;

pub const FIELDS_LIST: Symbol = 4;

pub const ENUMERATION: Symbol = 5;

pub const ENUMERATION_WIDTH: Symbol = 6;

pub const MEMBERS: Symbol = 7;

pub const MEMBERS_TAIL: Symbol = 8;

pub const MEMBERS_MORE: Symbol = 9;

pub const MEMBER: Symbol = 10;

pub const INITIAL_VALUE: Symbol = 11;

pub const CONSTANT: Symbol = 12;

pub const ACTION: Symbol = 13;

pub const PARAMETERS: Symbol = 14;

pub const PARAMETERS_LIST: Symbol = 15;

pub const PARAMETERS_TAIL: Symbol = 16;

pub const PARAMETER: Symbol = 17;

pub const DIRECTION: Symbol = 18;

// Forms: types and names.
pub const TYPE_FORM: Symbol = 19;

pub const STACK_SIZE: Symbol = 20;

pub const BASE_TYPE: Symbol = 21;

pub const WIDTH_ARGUMENTS: Symbol = 22;

pub const TYPE_ARGUMENTS: Symbol = 23;

pub const WIDTH: Symbol = 24;

pub const WORD: Symbol = 25;

pub const NAME: Symbol = 26;

// Forms: expressions.
pub const EXPRESSIONS: Symbol = 27;

pub const EXPRESSIONS_TAIL: Symbol = 28;

pub const OPTIONAL_EXPRESSIONS: Symbol = 29;

pub const EXPRESSION: Symbol = 30;

pub const UNARY: Symbol = 31;

pub const UNARY_OPERATOR: Symbol = 32;

pub const PARENTHESIS: Symbol = 33;

pub const ATOM: Symbol = 34;

pub const POSTFIX_PARTS: Symbol = 35;

pub const MEMBER_PART: Symbol = 36;

pub const SLICE_END: Symbol = 37;

pub const OPERATIONS: Symbol = 38;

pub const CHOICE: Symbol = 39;

// Forms: operators in a row, by level.
pub const PRODUCTS: Symbol = 40;

pub const PRODUCT_OPERATOR: Symbol = 41;

pub const SUMS: Symbol = 42;

pub const SUM_OPERATOR: Symbol = 43;

pub const SHIFTS: Symbol = 44;

pub const SHIFT_OPERATOR: Symbol = 45;

pub const CONJUNCTIONS: Symbol = 46;

pub const EXCLUSIONS: Symbol = 47;

pub const DISJUNCTIONS: Symbol = 48;

pub const ORDERS: Symbol = 49;

pub const ORDER_OPERATOR: Symbol = 50;

pub const EQUALITIES: Symbol = 51;

pub const EQUALITY_OPERATOR: Symbol = 52;

pub const ANDS: Symbol = 53;

pub const ORS: Symbol = 54;

// Forms: key sets.
pub const KEY_SET: Symbol = 55;

pub const KEY_PARENTHESIS: Symbol = 56;

pub const KEY_PARENTHESIS_REST: Symbol = 57;

pub const KEY_PARENTHESIS_TAIL: Symbol = 58;

pub const SIMPLE_KEY: Symbol = 59;

pub const MASK: Symbol = 60;

// Forms: variables, blocks and statements.
pub const VARIABLE: Symbol = 61;

pub const BLOCK: Symbol = 62;

pub const BLOCK_PARTS: Symbol = 63;

pub const BLOCK_PART: Symbol = 64;

pub const STATEMENT: Symbol = 65;

pub const ELSE_BRANCH: Symbol = 66;

pub const SWITCH_CASES: Symbol = 67;

pub const SWITCH_LABEL: Symbol = 68;

pub const SWITCH_BODY: Symbol = 69;

pub const STATEMENT_REST: Symbol = 70;

// Forms: parsers and states.
pub const PARSER: Symbol = 71;

pub const PARSER_PARTS: Symbol = 72;

pub const PARSER_PART: Symbol = 73;

pub const STATE: Symbol = 74;

pub const STATE_PARTS: Symbol = 75;

pub const STATE_PART: Symbol = 76;

pub const STATE_END: Symbol = 77;

pub const TRANSITION: Symbol = 78;

pub const TRANSITION_TARGET: Symbol = 79;

pub const SELECT_CASES: Symbol = 80;

// Forms: controls and instances.
pub const CONTROL: Symbol = 81;

pub const CONTROL_PARTS: Symbol = 82;

pub const LOCAL: Symbol = 83;

pub const LOCAL_REST: Symbol = 84;

pub const INSTANCE_ARGUMENTS: Symbol = 85;

pub const INSTANCE_ARGUMENTS_LIST: Symbol = 86;

pub const INSTANCE_ARGUMENTS_TAIL: Symbol = 87;

pub const INSTANCE_ARGUMENT: Symbol = 88;

// Forms: tables and their properties.
pub const TABLE: Symbol = 89;

pub const TABLE_PROPERTIES: Symbol = 90;

pub const PROPERTY: Symbol = 91;

pub const KEYS: Symbol = 92;

pub const LISTED_ACTIONS: Symbol = 93;

pub const EMPTY_CALL: Symbol = 94;

pub const CONSTANCY: Symbol = 95;

pub const PROPERTY_VALUE: Symbol = 96;

pub const ENTRIES: Symbol = 97;

/// How many forms there are. The words come behind them.
pub const FORM_COUNT: usize = 98;

// Keywords.
pub const KEYWORD_ACTION: Symbol = 98;

pub const KEYWORD_ACTIONS: Symbol = 99;

pub const KEYWORD_APPLY: Symbol = 100;

pub const KEYWORD_BIT: Symbol = 101;

pub const KEYWORD_BOOL: Symbol = 102;

pub const KEYWORD_CONST: Symbol = 103;

pub const KEYWORD_CONTROL: Symbol = 104;

pub const KEYWORD_DEFAULT: Symbol = 105;

pub const KEYWORD_ELSE: Symbol = 106;

pub const KEYWORD_ENTRIES: Symbol = 107;

pub const KEYWORD_ENUM: Symbol = 108;

pub const KEYWORD_ERROR: Symbol = 109;

pub const KEYWORD_EXIT: Symbol = 110;

pub const KEYWORD_FALSE: Symbol = 111;

pub const KEYWORD_HEADER: Symbol = 112;

pub const KEYWORD_IF: Symbol = 113;

pub const KEYWORD_IN: Symbol = 114;

pub const KEYWORD_INOUT: Symbol = 115;

pub const KEYWORD_INT: Symbol = 116;

pub const KEYWORD_KEY: Symbol = 117;

pub const KEYWORD_OUT: Symbol = 118;

pub const KEYWORD_PARSER: Symbol = 119;

pub const KEYWORD_RETURN: Symbol = 120;

pub const KEYWORD_SELECT: Symbol = 121;

pub const KEYWORD_STATE: Symbol = 122;

pub const KEYWORD_STRUCT: Symbol = 123;

pub const KEYWORD_SWITCH: Symbol = 124;

pub const KEYWORD_TABLE: Symbol = 125;

pub const KEYWORD_TRANSITION: Symbol = 126;

pub const KEYWORD_TRUE: Symbol = 127;

pub const KEYWORD_TYPEDEF: Symbol = 128;

// Signs.
pub const SIGN_MASK: Symbol = 129;

pub const SIGN_SATURATING_PLUS: Symbol = 130;

pub const SIGN_SATURATING_MINUS: Symbol = 131;

pub const SIGN_SHIFT_LEFT: Symbol = 132;

pub const SIGN_SHIFT_RIGHT: Symbol = 133;

pub const SIGN_AT_MOST: Symbol = 134;

pub const SIGN_AT_LEAST: Symbol = 135;

pub const SIGN_EQUAL: Symbol = 136;

pub const SIGN_NOT_EQUAL: Symbol = 137;

pub const SIGN_AND: Symbol = 138;

pub const SIGN_OR: Symbol = 139;

pub const SIGN_CONCAT: Symbol = 140;

pub const SIGN_RANGE: Symbol = 141;

pub const SIGN_PLUS: Symbol = 142;

pub const SIGN_MINUS: Symbol = 143;

pub const SIGN_STAR: Symbol = 144;

pub const SIGN_SLASH: Symbol = 145;

pub const SIGN_PERCENT: Symbol = 146;

pub const SIGN_AMPERSAND: Symbol = 147;

pub const SIGN_BAR: Symbol = 148;

pub const SIGN_CARET: Symbol = 149;

pub const SIGN_TILDE: Symbol = 150;

pub const SIGN_NOT: Symbol = 151;

pub const SIGN_LESS: Symbol = 152;

pub const SIGN_GREATER: Symbol = 153;

pub const SIGN_ASSIGN: Symbol = 154;

pub const SIGN_LEFT_PAREN: Symbol = 155;

pub const SIGN_RIGHT_PAREN: Symbol = 156;

pub const SIGN_LEFT_BRACE: Symbol = 157;

pub const SIGN_RIGHT_BRACE: Symbol = 158;

pub const SIGN_LEFT_BRACKET: Symbol = 159;

pub const SIGN_RIGHT_BRACKET: Symbol = 160;

pub const SIGN_COMMA: Symbol = 161;

pub const SIGN_SEMICOLON: Symbol = 162;

pub const SIGN_COLON: Symbol = 163;

pub const SIGN_DOT: Symbol = 164;

pub const SIGN_QUESTION: Symbol = 165;

pub const SIGN_UNDERSCORE: Symbol = 166;

// Words of the other kinds.
pub const ID: Symbol = 167;

pub const TYPE_NAME: Symbol = 168;

pub const BASE: Symbol = 169;

pub const INT_LITERAL: Symbol = 170;

pub const TEXT: Symbol = 171;

pub const NAMED: Symbol = 172;

pub const DEFAULT_ONLY: Symbol = 173;

pub const TABLE_ONLY: Symbol = 174;

pub const LOOKAHEAD: Symbol = 175;

pub const OPEN_ARGUMENTS: Symbol = 176;

pub const CLOSE_ARGUMENTS: Symbol = 177;

/// The words that stand in no form.
pub const RESERVED: Symbol = 178;

/// How many symbols there are.
pub const SYMBOL_COUNT: usize = 179;

/// How many rows there are.
pub const ROW_COUNT: usize = 226;
