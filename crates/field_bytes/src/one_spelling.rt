ghost use Rattle.field_bytes.specs.Fields.{u8_bytes, u16_bytes, u32_bytes, u64_bytes, i64_bytes, list_bytes, op_bytes, IsU8, IsU16, IsU32, IsU64, IsI64, IsShortList, IsOpField, IsPrefixFree};

/// Bytes that begin with a field of some kind do so in one way: the field and what follows it are known.
pub fn fields_are_prefix_free()
    ensures u8 { IsPrefixFree u8_bytes IsU8 }
    ensures u16 { IsPrefixFree u16_bytes IsU16 }
    ensures u32 { IsPrefixFree u32_bytes IsU32 }
    ensures u64 { IsPrefixFree u64_bytes IsU64 }
    ensures i64 { IsPrefixFree i64_bytes IsI64 }
    ensures list { IsPrefixFree list_bytes IsShortList }
    ensures op { IsPrefixFree op_bytes IsOpField }
{}
