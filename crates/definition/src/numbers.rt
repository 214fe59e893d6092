// The numbers that the paper and docs/STORE.md fix, each named once, for code. specs/Numbers.antt has the same names for definitions;
// `all_words`, `all_limits`, `all_cells` and `all_lengths` promise that the two are equal.
ghost use Rattle.std.specs.Prelude.{◌≡◌};
ghost use Rattle.definition.specs.Numbers.{all_numbers, all_words, all_limits, all_cells, all_lengths};

// Words of refusal.
pub const WORD_BROKEN: u8 = 1;

pub const WORD_FILE: u8 = 2;

pub const WORD_UNKNOWN: u8 = 3;

pub const WORD_TAKEN: u8 = 4;

pub const WORD_WANTED: u8 = 5;

pub const WORD_UNVERIFIED: u8 = 6;

pub const WORD_ABSENT: u8 = 7;

// Reserved: no call answers it.
pub const WORD_HIDDEN: u8 = 8;

pub const WORD_CLASH: u8 = 9;

pub const WORD_FULL: u8 = 10;

pub const WORD_NULL: u8 = 11;

pub const WORD_BUSY: u8 = 12;

pub const WORD_MISNAMED: u8 = 13;

pub const WORD_STUCK: u8 = 14;

pub const WORD_UNMAPPED: u8 = 15;

pub const WORD_SHORT: u8 = 16;

pub const WORD_DIVISOR: u8 = 17;

pub const WORD_SHARE: u8 = 18;

pub const WORD_LATE: u8 = 19;

pub const WORD_OFFERS: u8 = 20;

// Names: 0 is none; others than these are free.
pub const NAME_INT: u16 = 1;

pub const NAME_OBJECT: u16 = 2;

// Limits: loaders are 0 to 15, tasks 0 (the quote) and 1 (the report).
pub const LOADER_LIMIT: u32 = 16;

pub const TASK_LIMIT: u32 = 2;

pub const CLASS_LIMIT: u16 = 64;

pub const KEPT_LIMIT: u16 = 16384;

pub const CACHE_LIMIT: u16 = 256;

pub const TIE_LIMIT: u16 = 256;

pub const SUBTYPE_LIMIT: u16 = 256;

pub const OBJECT_LIMIT: u16 = 256;
// Objects of the report.
pub const SHARE_LIMIT: u16 = 192;
// Fields of an object, inherited ones included.
pub const FIELD_LIMIT: u32 = 16;
// Frames of a task.
pub const FRAME_LIMIT: u16 = 32;

pub const OPERAND_LIMIT: u32 = 16;
// Locals of a frame, always all of them.
pub const LOCAL_COUNT: u8 = 8;
// Steps of a run.
pub const RUN_LIMIT: u32 = 65535;
// Loads that can be taken back.
pub const TRACE_LIMIT: u16 = 32;
// The numbers that the list lent to a tried load has room for.
pub const LIST_LIMIT: usize = 512;
// Loads offered to a search.
pub const OFFER_LIMIT: usize = 8;

// The file: its version, its bytes, the fields or methods that it declares, the bytes of a method's code.
pub const VERSION_ONE: u8 = 1;
// The first with branches and maps, imul and idiv.
pub const VERSION_TWO: u8 = 2;
// The first with lists of arguments.
pub const VERSION_THREE: u8 = 3;

pub const FILE_LIMIT: usize = 4096;

pub const MEMBER_LIMIT: u8 = 8;
// The arguments of a method.
pub const ARGUMENT_LIMIT: u8 = 4;

pub const CODE_LIMIT: u16 = 512;

// The cells of counts; of the eight counts those of the tasks' frames stand last, the quote's, then the report's.
pub const COUNT_CLASSES: usize = 0;

pub const COUNT_KEPT: usize = 1;

pub const COUNT_CACHE: usize = 2;

pub const COUNT_TIES: usize = 3;

pub const COUNT_SUBTYPES: usize = 4;

pub const COUNT_OBJECTS: usize = 5;

pub const COUNT_FRAMES: usize = 6;
// Behind them, the owners of the object rows: 0 of a free row, else 1 and the task that made the object.
pub const OWNERS_CELL: usize = COUNT_FRAMES + TASK_LIMIT as usize;

// Behind those, the numbers of the tie rows, then the numbers of the rows of subtype constraints.
pub const TIE_NUMBERS_CELL: usize = OWNERS_CELL + OBJECT_LIMIT as usize;

pub const SUBTYPE_NUMBERS_CELL: usize = TIE_NUMBERS_CELL + TIE_LIMIT as usize;

// Behind those, how many loads can be taken back, then the trace: for each of them, the oldest first, the first five counts before it.
pub const LOADS_CELL: usize = SUBTYPE_NUMBERS_CELL + SUBTYPE_LIMIT as usize;

pub const TRACE_CELL: usize = LOADS_CELL + 1;

pub const LEVEL_CELLS: usize = 5;

// Behind that, the group of each tie's row.
pub const GROUPS_CELL: usize = TRACE_CELL + TRACE_LIMIT as usize * LEVEL_CELLS;

// Rows: cells of a row of classes, cache, ties and subtypes, and of a value.
pub const ROW_CELLS: usize = 3;

pub const VALUE_CELLS: usize = 2;

// A row of offers, which no store has.
pub const OFFER_CELLS: usize = 4;

// An object: its class, then its fields.
pub const FIELDS_CELL: usize = 1;

pub const OBJECT_CELLS: usize = FIELDS_CELL + VALUE_CELLS * FIELD_LIMIT as usize;

// A frame: its class, its method's place, the point, the operand count, then locals, then operands.
pub const METHOD_CELL: usize = 1;

pub const POINT_CELL: usize = 2;

pub const DEPTH_CELL: usize = 3;

pub const LOCALS_CELL: usize = 4;

pub const OPERANDS_CELL: usize = LOCALS_CELL + VALUE_CELLS * LOCAL_COUNT as usize;

pub const FRAME_CELLS: usize = OPERANDS_CELL + VALUE_CELLS * OPERAND_LIMIT as usize;

// The published lengths.
pub const COUNTS_LENGTH: usize = GROUPS_CELL + TIE_LIMIT as usize;

pub const CLASSES_LENGTH: usize = CLASS_LIMIT as usize * ROW_CELLS;

pub const KEPT_LENGTH: usize = KEPT_LIMIT as usize;

pub const CACHE_LENGTH: usize = CACHE_LIMIT as usize * ROW_CELLS;

pub const TIES_LENGTH: usize = TIE_LIMIT as usize * ROW_CELLS;

pub const SUBTYPES_LENGTH: usize = SUBTYPE_LIMIT as usize * ROW_CELLS;

pub const OBJECTS_LENGTH: usize = OBJECT_LIMIT as usize * OBJECT_CELLS;

pub const FRAMES_LENGTH: usize = TASK_LIMIT as usize * FRAME_LIMIT as usize * FRAME_CELLS;

// Kinds of values.
pub const KIND_EMPTY: u32 = 0;

pub const KIND_INT: u32 = 1;

pub const KIND_NULL: u32 = 2;

pub const KIND_OBJECT: u32 = 3;

// Widths of numbers; ints below the sign bit are read as they are, others as negative.
pub const BYTE_RANGE: u16 = 256;

pub const SHORT_RANGE: u32 = 65536;

pub const INT_RANGE: usize = 4294967296;

pub const SIGN_BIT: u32 = 2147483648;

// Every word of refusal above, in the order of specs/Numbers.antt.
pub fn all_words() -> [u64; 20]
    ensures { result ≡ all_words }
{
    [
        WORD_BROKEN as u64,
        WORD_FILE as u64,
        WORD_UNKNOWN as u64,
        WORD_TAKEN as u64,
        WORD_WANTED as u64,
        WORD_UNVERIFIED as u64,
        WORD_ABSENT as u64,
        WORD_HIDDEN as u64,
        WORD_CLASH as u64,
        WORD_FULL as u64,
        WORD_NULL as u64,
        WORD_BUSY as u64,
        WORD_MISNAMED as u64,
        WORD_STUCK as u64,
        WORD_UNMAPPED as u64,
        WORD_SHORT as u64,
        WORD_DIVISOR as u64,
        WORD_SHARE as u64,
        WORD_LATE as u64,
        WORD_OFFERS as u64,
    ]
}

// Every name, limit and version above.
pub fn all_limits() -> [u64; 26]
    ensures { result ≡ all_limits }
{
    [
        NAME_INT as u64,
        NAME_OBJECT as u64,
        LOADER_LIMIT as u64,
        TASK_LIMIT as u64,
        CLASS_LIMIT as u64,
        KEPT_LIMIT as u64,
        CACHE_LIMIT as u64,
        TIE_LIMIT as u64,
        SUBTYPE_LIMIT as u64,
        OBJECT_LIMIT as u64,
        SHARE_LIMIT as u64,
        FIELD_LIMIT as u64,
        FRAME_LIMIT as u64,
        OPERAND_LIMIT as u64,
        LOCAL_COUNT as u64,
        RUN_LIMIT as u64,
        TRACE_LIMIT as u64,
        LIST_LIMIT as u64,
        OFFER_LIMIT as u64,
        VERSION_ONE as u64,
        VERSION_TWO as u64,
        VERSION_THREE as u64,
        FILE_LIMIT as u64,
        MEMBER_LIMIT as u64,
        ARGUMENT_LIMIT as u64,
        CODE_LIMIT as u64,
    ]
}

// Every cell above, and every width of rows and values.
pub fn all_cells() -> [u64; 25]
    ensures { result ≡ all_cells }
{
    [
        COUNT_CLASSES as u64,
        COUNT_KEPT as u64,
        COUNT_CACHE as u64,
        COUNT_TIES as u64,
        COUNT_SUBTYPES as u64,
        COUNT_OBJECTS as u64,
        COUNT_FRAMES as u64,
        OWNERS_CELL as u64,
        TIE_NUMBERS_CELL as u64,
        SUBTYPE_NUMBERS_CELL as u64,
        LOADS_CELL as u64,
        TRACE_CELL as u64,
        LEVEL_CELLS as u64,
        GROUPS_CELL as u64,
        ROW_CELLS as u64,
        VALUE_CELLS as u64,
        OFFER_CELLS as u64,
        FIELDS_CELL as u64,
        OBJECT_CELLS as u64,
        METHOD_CELL as u64,
        POINT_CELL as u64,
        DEPTH_CELL as u64,
        LOCALS_CELL as u64,
        OPERANDS_CELL as u64,
        FRAME_CELLS as u64,
    ]
}

// Every length of a table, kind of value and range above.
pub fn all_lengths() -> [u64; 16]
    ensures { result ≡ all_lengths }
{
    [
        COUNTS_LENGTH as u64,
        CLASSES_LENGTH as u64,
        KEPT_LENGTH as u64,
        CACHE_LENGTH as u64,
        TIES_LENGTH as u64,
        SUBTYPES_LENGTH as u64,
        OBJECTS_LENGTH as u64,
        FRAMES_LENGTH as u64,
        KIND_EMPTY as u64,
        KIND_INT as u64,
        KIND_NULL as u64,
        KIND_OBJECT as u64,
        BYTE_RANGE as u64,
        SHORT_RANGE as u64,
        INT_RANGE as u64,
        SIGN_BIT as u64,
    ]
}

// The numbers that the base and the first papers have, in the order of their names in specs/Numbers.antt.
pub fn all_numbers() -> [u64; 84]
    ensures { result ≡ all_numbers }
{
    [
        WORD_BROKEN as u64,
        WORD_FILE as u64,
        WORD_UNKNOWN as u64,
        WORD_TAKEN as u64,
        WORD_WANTED as u64,
        WORD_UNVERIFIED as u64,
        WORD_ABSENT as u64,
        WORD_HIDDEN as u64,
        WORD_CLASH as u64,
        WORD_FULL as u64,
        WORD_NULL as u64,
        WORD_BUSY as u64,
        WORD_MISNAMED as u64,
        WORD_STUCK as u64,
        WORD_UNMAPPED as u64,
        WORD_SHORT as u64,
        WORD_DIVISOR as u64,
        WORD_SHARE as u64,
        WORD_LATE as u64,
        NAME_INT as u64,
        NAME_OBJECT as u64,
        LOADER_LIMIT as u64,
        TASK_LIMIT as u64,
        CLASS_LIMIT as u64,
        KEPT_LIMIT as u64,
        CACHE_LIMIT as u64,
        TIE_LIMIT as u64,
        SUBTYPE_LIMIT as u64,
        OBJECT_LIMIT as u64,
        SHARE_LIMIT as u64,
        FIELD_LIMIT as u64,
        FRAME_LIMIT as u64,
        OPERAND_LIMIT as u64,
        LOCAL_COUNT as u64,
        RUN_LIMIT as u64,
        TRACE_LIMIT as u64,
        LIST_LIMIT as u64,
        VERSION_ONE as u64,
        VERSION_TWO as u64,
        VERSION_THREE as u64,
        FILE_LIMIT as u64,
        MEMBER_LIMIT as u64,
        ARGUMENT_LIMIT as u64,
        CODE_LIMIT as u64,
        COUNT_CLASSES as u64,
        COUNT_KEPT as u64,
        COUNT_CACHE as u64,
        COUNT_TIES as u64,
        COUNT_SUBTYPES as u64,
        COUNT_OBJECTS as u64,
        COUNT_FRAMES as u64,
        OWNERS_CELL as u64,
        TIE_NUMBERS_CELL as u64,
        SUBTYPE_NUMBERS_CELL as u64,
        LOADS_CELL as u64,
        TRACE_CELL as u64,
        LEVEL_CELLS as u64,
        GROUPS_CELL as u64,
        ROW_CELLS as u64,
        VALUE_CELLS as u64,
        FIELDS_CELL as u64,
        OBJECT_CELLS as u64,
        METHOD_CELL as u64,
        POINT_CELL as u64,
        DEPTH_CELL as u64,
        LOCALS_CELL as u64,
        OPERANDS_CELL as u64,
        FRAME_CELLS as u64,
        COUNTS_LENGTH as u64,
        CLASSES_LENGTH as u64,
        KEPT_LENGTH as u64,
        CACHE_LENGTH as u64,
        TIES_LENGTH as u64,
        SUBTYPES_LENGTH as u64,
        OBJECTS_LENGTH as u64,
        FRAMES_LENGTH as u64,
        KIND_EMPTY as u64,
        KIND_INT as u64,
        KIND_NULL as u64,
        KIND_OBJECT as u64,
        BYTE_RANGE as u64,
        SHORT_RANGE as u64,
        INT_RANGE as u64,
        SIGN_BIT as u64,
    ]
}
