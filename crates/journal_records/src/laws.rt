ghost use Rattle.std.specs.Prelude.{List};
ghost use Rattle.plain_orders.specs.declared.entry.Entry.{Entry};
ghost use Rattle.plain_orders.specs.Ordered.{MayFollow};
ghost use Rattle.field_bytes.specs.Fields.{IsPrefixFree};
ghost use Rattle.journal_records.specs.Records.{entry_bytes, IsRecord, HasRecordOp};

/// Bytes that begin with a record do so in one way: the entry and what follows it are known.
pub fn records_are_prefix_free()
    ensures { IsPrefixFree entry_bytes IsRecord }
{}

/// Each entry that may follow an ordered list can be written.
pub fn ordered_entries_have_records()
    ensures { (before : List Entry) (entry : Entry) → MayFollow before entry → HasRecordOp entry }
{}
