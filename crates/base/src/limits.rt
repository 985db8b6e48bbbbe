// The limits of the toolchain, each once. Contracts cite the definitions of the same names in small letters, and the law
// at the end says that they are the same numbers.
ghost use Rattle.std.specs.Prelude.{◌≡◌};
ghost use Rattle.base.specs.Limits.{most_source_bytes, most_name_bytes, most_levels, most_names, most_cells, most_instructions, most_words, most_steps, most_nodes, most_items, code_room, most_image_bytes};

/// The most bytes of a source.
pub const MOST_SOURCE_BYTES: usize = 32768;

/// The most bytes of a word of a source, which is a name or reserved.
pub const MOST_NAME_BYTES: usize = 15;

/// The most levels of a source that are open at one place. The outer BEGIN opens the first.
pub const MOST_LEVELS: u8 = 32;

/// The most names that a source declares.
pub const MOST_NAMES: usize = 64;

/// The most cells that the names of a source take together, and the most that a code uses.
pub const MOST_CELLS: u16 = 4096;

/// The most instructions of a code.
pub const MOST_INSTRUCTIONS: usize = 16383;

/// The most words of a store, and of the stack of a code.
pub const MOST_WORDS: usize = 65535;

/// The most steps of a session.
pub const MOST_STEPS: u64 = 4000000000;

/// Room for the nodes of a syntax list: two for each byte of a source.
pub const MOST_NODES: usize = 2 * MOST_SOURCE_BYTES;

/// The most items of a typed list: two for each node of a syntax list.
pub const MOST_ITEMS: usize = 2 * MOST_NODES;

/// Room for the instructions of a code while it is made: one more than the longest code has.
pub const CODE_ROOM: usize = MOST_INSTRUCTIONS + 1;

/// The most bytes of an image: nine for its three figures, and nine for each instruction.
pub const MOST_IMAGE_BYTES: usize = 9 * CODE_ROOM;

/// A law: the limits of the code are those of the definitions.
pub fn limits_agree()
    ensures source { MOST_SOURCE_BYTES ≡ most_source_bytes }
    ensures name { MOST_NAME_BYTES ≡ most_name_bytes }
    ensures levels { MOST_LEVELS ≡ most_levels }
    ensures names { MOST_NAMES ≡ most_names }
    ensures cells { MOST_CELLS ≡ most_cells }
    ensures instructions { MOST_INSTRUCTIONS ≡ most_instructions }
    ensures words { MOST_WORDS ≡ most_words }
    ensures steps { MOST_STEPS ≡ most_steps }
    ensures nodes { MOST_NODES ≡ most_nodes }
    ensures items { MOST_ITEMS ≡ most_items }
    ensures code { CODE_ROOM ≡ code_room }
    ensures image { MOST_IMAGE_BYTES ≡ most_image_bytes }
{}
