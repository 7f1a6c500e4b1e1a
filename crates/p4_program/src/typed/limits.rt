//! The limits of a source and of a program.

/// The most bytes of a source.
pub const MAX_SOURCE_BYTES: usize = 262_144;

/// The most tokens and replaced names of a source.
pub const MAX_TOKENS: usize = 1_000_000;

/// The most scalars, structs, headers and stacks of the headers, the metadata and the variables of one block together.
pub const MAX_PATHS: usize = 4_096;

/// The most calls of actions and controls and applications of tables inside one another.
pub const MAX_CALL_DEPTH: usize = 64;

/// The most tables.
pub const MAX_TABLES: usize = 64;

/// The most parser states.
pub const MAX_STATES: usize = 256;

/// The most constant entries of all tables together.
pub const MAX_CONSTANT_ENTRIES: usize = 1_024;

/// The most keys of a table.
pub const MAX_KEYS: usize = 16;

/// The most actions in the list of a table.
pub const MAX_ACTIONS: usize = 64;

/// The most members of an enum, and the most errors.
pub const MAX_MEMBERS: u32 = 256;

/// The most elements of a stack.
pub const MAX_STACK_SIZE: u8 = 16;

/// The most nodes of a parser that is unrolled.
pub const MAX_PARSER_NODES: usize = 8_000;

/// The most statements of a program whose calls are unfolded.
pub const MAX_UNFOLDED_STATEMENTS: usize = 100_000;
