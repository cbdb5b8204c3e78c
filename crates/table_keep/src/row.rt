// The rows of tables.
use mix_tree::Label;

/// The value that a row has in a column.
#[derive(Drop)]
pub enum Cell {
    Null,
    Int(i64),
    Text(Label),
    Bytes(Vec<u8>),
}

/// A row: its key, and a cell for each column that was asked for, in their order.
#[derive(Drop)]
pub struct TableRow {
    pub key: i64,
    pub cells: Vec<Cell>,
}
