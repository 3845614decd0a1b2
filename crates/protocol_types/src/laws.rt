//! Laws of types of messages and versions. Each function does nothing: its contract is the law.

ghost use Rattle.protocol_types.specs.Laws.{NamesReadBack, CustomEntriesReadBack, NumbersReadBack, RestIsUnknown, ContentTypesReadBack, VersionsReadBack, SpokenVersionsHaveNumbers};

/// Each named type is read back from its number, and a custom entry exactly where its number is no named type's and
/// has one of its six highest bits set. A number that is read as a type is that type's, and it is refused exactly
/// where no named type has it and these six bits are zero.
pub fn types_read_back()
    ensures named { NamesReadBack }
    ensures custom { CustomEntriesReadBack }
    ensures number { NumbersReadBack }
    ensures unknown { RestIsUnknown }
{}

/// Each version is read back from its content type, and from its number; and each number that is not unsupported is one of a
/// version.
pub fn versions_read_back()
    ensures content_type { ContentTypesReadBack }
    ensures number { VersionsReadBack }
    ensures spoken { SpokenVersionsHaveNumbers }
{}
