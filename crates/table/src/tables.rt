// The two tables as types: a value of either holds the numbers that the rule makes, whoever lends it. Two types, for the size and the rule of each are
// its own.
ghost use Rattle.std.specs.Prelude.{◌≡◌};
ghost use Rattle.table.specs.Table.{entries, digit_entries};

// The reverse table: its entries are those that the rule makes.
#[derive(Clone, Copy)]
pub struct Table {
    pub values: [u8; 1536],
    pub ghost is: { values ≡ entries },
}

// The table of digits: its bytes are those that the rule makes.
#[derive(Clone, Copy)]
pub struct Digits {
    pub bytes: [u8; 384],
    pub ghost is: { bytes ≡ digit_entries },
}
