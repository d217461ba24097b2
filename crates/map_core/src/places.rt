//! Where the words of a table lie: each of these words has cache lines of its own, since threads write to one while
//! they read another. A line has 8 words of 8 bytes, and a processor may fetch two lines together.

/// The word that says which generation is current. Splitting and joining passes load it too.
pub const CURRENT_WORD: usize = 0;

/// The word that counts the entries.
pub const COUNT_WORD: usize = 16;

/// The take words begin here: a generation has one, which counts the blocks of it that were taken to be moved. They share
/// cache lines, since one generation is moved at a time.
pub const FIRST_TAKE_WORD: usize = 32;

/// The words of the cells begin here: of each cell its key word, then its value word. The generations follow one
/// another, the lowest first, and behind them lie the finish words of their blocks.
pub const FIRST_CELL_WORD: usize = 64;

/// A key's home is taken from the top bits of its product with this number: 2^64 divided by the golden ratio.
pub const HASH_MULTIPLIER: u64 = 11400714819323198485;
