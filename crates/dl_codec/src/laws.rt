//! What holds of fields, for all bytes: a law on their definitions, with no code.

ghost use Rattle.std.specs.Int.{w8, w16, w32, w64};
ghost use Rattle.dl_codec.specs.Laws.{HasOneSpelling};

/// A number has one spelling at each width: what was written is read again, and what is read was written so. It rests
/// on the law of `from_be_bytes`.
pub fn numbers_have_one_spelling()
    ensures bits_8 { HasOneSpelling w8 }
    ensures bits_16 { HasOneSpelling w16 }
    ensures bits_32 { HasOneSpelling w32 }
    ensures bits_64 { HasOneSpelling w64 }
{}
