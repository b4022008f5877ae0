// A row: twelve places that hold the bells 1 to 12 once each. On a stage the bells above it are covers in their own places.
ghost use Rattle.rows.specs.Rows.{RowOf};

#[derive(Clone, Copy, PartialEq, Eq)]
pub struct Row {
    pub bells: [u8; 12],
    ghost once: { RowOf 12 bells },
}
