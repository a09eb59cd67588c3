//! The number of each fault, by name.

/// A byte that begins or continues no token.
pub const NO_TOKEN: u32 = 10;
/// A token that the grammar doesn't allow there, or a text that ends too early.
pub const UNEXPECTED_TOKEN: u32 = 11;
/// One open bracket too many.
pub const BRACKETS_TOO_DEEP: u32 = 12;
/// A literal or a number out of its range.
pub const NUMBER_OUT_OF_RANGE: u32 = 13;
/// A name that is too long.
pub const NAME_TOO_LONG: u32 = 14;

/// A name that names no thing of the wanted kind that was declared before.
pub const UNKNOWN_NAME: u32 = 20;
/// A name that was declared before.
pub const REPEATED_NAME: u32 = 21;
/// A value of the wrong type.
pub const WRONG_TYPE: u32 = 22;
/// A value of the wrong width, or a width or an index out of its range.
pub const WRONG_WIDTH: u32 = 23;
/// A wrong, missing or surplus field or member.
pub const WRONG_FIELD: u32 = 24;
/// A call with a wrong number of arguments.
pub const WRONG_ARGUMENT_COUNT: u32 = 25;
/// A rule that is twice on one path of the schedule.
pub const RULE_TWICE_ON_A_PATH: u32 = 27;
/// A table with a wrong number of entries.
pub const WRONG_ENTRY_COUNT: u32 = 28;
/// A host function that wasn't offered with this name and these widths.
pub const UNKNOWN_HOST_FUNCTION: u32 = 29;

/// A malformed or repeated assignment of a stimulus.
pub const MALFORMED_ASSIGNMENT: u32 = 30;
/// An assignment to no input.
pub const UNKNOWN_INPUT: u32 = 31;
/// An assigned value that is wider than its input.
pub const INPUT_TOO_WIDE: u32 = 32;

/// A source with too many bytes.
pub const SOURCE_TOO_LONG: u32 = 40;
/// Too many registers.
pub const TOO_MANY_REGISTERS: u32 = 41;
/// Too many rules.
pub const TOO_MANY_RULES: u32 = 42;
/// Too many nodes of the schedule.
pub const TOO_MANY_NODES: u32 = 43;
/// A design that weighs too much.
pub const TOO_HEAVY: u32 = 44;
/// A run that is too long.
pub const RUN_TOO_LONG: u32 = 45;
/// A design that is nested too deeply.
pub const TOO_DEEP: u32 = 46;
/// Too many inputs.
pub const TOO_MANY_INPUTS: u32 = 47;
/// A design that is too heavy in bits for a bit-level circuit.
pub const TOO_MANY_BITS: u32 = 48;
/// A run that is too long for a journal.
pub const JOURNAL_TOO_LONG: u32 = 49;

/// A malformed line of a BTOR2 file.
pub const MALFORMED_LINE: u32 = 50;
/// An id that an earlier line defines.
pub const REPEATED_ID: u32 = 51;
/// An operand or a sort that no earlier line defines.
pub const UNDEFINED_ID: u32 = 52;
/// An id of the wrong kind, or widths that don't agree.
pub const WRONG_SORT: u32 = 53;
/// A keyword or a form of BTOR2 files that isn't taken here.
pub const FORM_LEFT_OUT: u32 = 54;
/// A width or a slice of a BTOR2 file that is out of its range.
pub const SORT_OUT_OF_RANGE: u32 = 55;
/// A state without a next value.
pub const STATE_WITHOUT_NEXT: u32 = 56;
/// A second first value or next value of one state.
pub const REPEATED_INIT_OR_NEXT: u32 = 57;
/// A constant that doesn't fit into its width.
pub const CONSTANT_TOO_GREAT: u32 = 58;
/// A first value that depends on an input or a state.
pub const INIT_NOT_CONSTANT: u32 = 59;

/// A line of an AIGER text that isn't of its form, or is missing; a symbol's index that is out of range.
pub const MALFORMED_AIGER: u32 = 70;
/// A literal whose variable is above the greatest.
pub const VARIABLE_TOO_GREAT: u32 = 71;
/// A variable that an earlier line defines.
pub const VARIABLE_DEFINED_TWICE: u32 = 72;
/// A defined literal that is odd or a constant.
pub const NO_VARIABLE: u32 = 73;
/// A literal whose variable isn't defined, or for a gate isn't defined before.
pub const UNDEFINED_VARIABLE: u32 = 74;
/// A reset that is neither 0 nor 1.
pub const RESET_LEFT_OUT: u32 = 75;

/// A line of a journal that is of no form, or is missing.
pub const MALFORMED_JOURNAL: u32 = 80;
/// An attempt of a journal that isn't a trace.
pub const NO_TRACE: u32 = 81;
/// An answer of a journal that the board couldn't have given.
pub const WRONG_ANSWER: u32 = 82;
/// A batch of a journal that doesn't follow the one before, or leaves cycles open.
pub const WRONG_BATCH: u32 = 83;
