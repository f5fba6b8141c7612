// A table that passed the check, and what a call sees of it.
ghost use Rattle.std.specs.Prelude.{◌*◌, ◌≤◌, length};
ghost use Rattle.tsparql.specs.Table.{record_length};
ghost use Rattle.tsparql.specs.Check.{Passes, table_refusal};
ghost use Rattle.tsparql.specs.WellFormed.{Bytes};

// What a call sees of a table: its first records, as many as this says.
#[derive(Clone, Copy)]
pub struct View {
    pub records: usize,
}

// The bytes of a table that passed the check, and the records of it that a call sees.
#[derive(Clone, Copy)]
pub struct Table<'a> {
    pub bytes: &'a [u8],
    pub view: View,
    pub ghost octets: { Bytes bytes.now },
    pub ghost passed: { Passes (table_refusal bytes.now) },
    pub ghost inside: { record_length * view.records ≤ length bytes.now },
}
