// The limits of documents 01 and 02, each under its one name in code. Whoever uses one is proved to keep that of specs/Limits.antt.

// "Limits: I and L 0 to 64, A 0 to 1,024, N 1 to 64, k 0 to 31."
pub const INPUTS_LIMIT: u32 = 64;

pub const LATCHES_LIMIT: u32 = 64;

pub const GATES_LIMIT: u32 = 1024;

pub const NODES_LIMIT: u32 = 64;

pub const BOUND_LIMIT: u32 = 31;

// "a sixth header word D, 0 to 16"
pub const CONSTRAINTS_LIMIT: u32 = 16;

// "If free resets plus I(k+1) are at most 16"
pub const SEARCH_LIMIT: usize = 16;

// "any CNF with up to 65,535 variables"
pub const VARIABLES_LIMIT: u32 = 65535;

// "Standard input, at most 16,384 bytes"
pub const JOB_LIMIT: usize = 16384;

// "The program has 8,192 CNF words."
pub const PROGRAM_ROOM: usize = 8192;

// "O is 0 to 64"
pub const OUTPUTS_LIMIT: u32 = 64;

// "numbers .. are at most 2,147,483,647 in size"
pub const LARGEST_NUMBER: u64 = 2147483647;

// "A text has at most 2,147,483,647 bytes."
pub const LONGEST_TEXT: usize = 2147483647;
