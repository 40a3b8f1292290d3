// Bytes that mark types, limits, externals and sections in the binary format.

// Types (Core 1.0, 5.3).

/// The value type `i32`.
pub const TYPE_I32: u8 = 0x7f;
/// The value type `i64`.
pub const TYPE_I64: u8 = 0x7e;
/// The value type `f32`.
pub const TYPE_F32: u8 = 0x7d;
/// The value type `f64`.
pub const TYPE_F64: u8 = 0x7c;
/// The type of a table's entries.
pub const TYPE_FUNCREF: u8 = 0x70;
/// A function type.
pub const TYPE_FUNC: u8 = 0x60;
/// The type of a block with no result.
pub const TYPE_EMPTY: u8 = 0x40;

// Limits and mutability (Core 1.0, 5.3.5 and 5.3.7).

/// Limits with no maximum.
pub const LIMITS_MIN: u8 = 0x00;
/// Limits with a maximum.
pub const LIMITS_MIN_MAX: u8 = 0x01;
/// A global that does not change.
pub const MUTABILITY_CONST: u8 = 0x00;
/// A global that may change.
pub const MUTABILITY_VAR: u8 = 0x01;

// What is imported and exported (Core 1.0, 5.5.5 and 5.5.10).

/// A function.
pub const EXTERNAL_FUNC: u8 = 0x00;
/// A table.
pub const EXTERNAL_TABLE: u8 = 0x01;
/// A memory.
pub const EXTERNAL_MEMORY: u8 = 0x02;
/// A global.
pub const EXTERNAL_GLOBAL: u8 = 0x03;

// Declared element segments (Core 2.0, 5.5.12).

/// The number that a declared segment begins with.
pub const ELEMENT_DECLARED: u8 = 0x03;
/// The kind of a segment of functions.
pub const ELEMENT_FUNCS: u8 = 0x00;

// Sections (Core 1.0, 5.5.2).

/// Custom.
pub const SECTION_CUSTOM: u8 = 0x00;
/// Types.
pub const SECTION_TYPE: u8 = 0x01;
/// Imports.
pub const SECTION_IMPORT: u8 = 0x02;
/// The types of functions.
pub const SECTION_FUNCTION: u8 = 0x03;
/// Tables.
pub const SECTION_TABLE: u8 = 0x04;
/// Memories.
pub const SECTION_MEMORY: u8 = 0x05;
/// Globals.
pub const SECTION_GLOBAL: u8 = 0x06;
/// Exports.
pub const SECTION_EXPORT: u8 = 0x07;
/// The start function.
pub const SECTION_START: u8 = 0x08;
/// Element segments.
pub const SECTION_ELEMENT: u8 = 0x09;
/// The code of functions.
pub const SECTION_CODE: u8 = 0x0a;
/// Data segments.
pub const SECTION_DATA: u8 = 0x0b;
