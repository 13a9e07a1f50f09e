//! What holds of the readers of this crate, for all bytes: laws on their definitions, with no code.

ghost use Rattle.std.specs.Int.{w8, w16, w32, w64};
ghost use Rattle.dl_fields.specs.Laws.{WidthIsExact, CodesAreExact, PathsAreExact};

use crate::code::Code;

/// Numbers, and bytes behind their length, are spelt in one way and read as they are spelt.
pub fn numbers_are_exact()
    ensures bits_8 { WidthIsExact w8 }
    ensures bits_16 { WidthIsExact w16 }
    ensures bits_32 { WidthIsExact w32 }
    ensures bits_64 { WidthIsExact w64 }
{}

/// Each value of a closed list is read by its code, provided that no code stands for two of them.
pub fn codes_are_exact<K: Code>()
    ensures { CodesAreExact K.code }
{}

/// Paths, and names of listings, are spelt in one way and read as they are spelt.
pub fn paths_are_exact()
    ensures { PathsAreExact }
{}
