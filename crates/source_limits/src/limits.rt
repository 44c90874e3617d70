//! The limits, in the order in which a source is held to them. Where one is exceeded, the word of its `limit` line stands beside it.

/// How many bytes a source has at most: `source`.
pub const MOST_BYTES: usize = 1_048_576;

/// How many nodes of the tree hold a node at most; else the source breaks the rule `deep`.
pub const MOST_HOLDERS: u8 = 200;

/// How many functions a source has at most, declared or defined: `functions`.
pub const MOST_FUNCTIONS: usize = 1_000;

/// How many parameters a function has at most: `params`.
pub const MOST_PARAMS: usize = 8;

/// How many members a struct has at most: `members`.
pub const MOST_MEMBERS: usize = 64;

/// How many bytes an object has at most, and all globals in one row: `object` and `globals`.
pub const GREATEST_OBJECT: u64 = 1_048_576;

/// How many bytes the parameters and locals of a function have at most: `frame`.
pub const GREATEST_FRAME: u64 = 32_768;

/// How many nodes the tree of a source has at most: `code`.
pub const MOST_NODES: usize = 131_072;

/// How many values the evaluation stack of a function holds at most: `values`.
pub const MOST_VALUES: u8 = 64;
