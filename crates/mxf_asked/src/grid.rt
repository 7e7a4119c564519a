//! How many cells the picture of a map has.
ghost use Rattle.std.specs.Prelude.{◌≡◌, ◌≤◌, ◌⊎◌, IfNone, IfSome};

/// How many cells a picture has at most: its rows, and the cells in each.
#[derive(Clone, Copy, PartialEq, Eq)]
pub struct Grid {
    columns: u32,
    rows: u32,

    ghost some_columns: { 1 ≤ columns },
    ghost some_rows: { 1 ≤ rows },
}

impl Grid {
    /// This number of cells in a row, and of rows; `None` if either is 0.
    pub fn new(columns: u32, rows: u32) -> Option<Grid>
        ensures some { IfSome result (λ g. (g.columns ≡ columns) × (g.rows ≡ rows)) }
        ensures none { IfNone result ((columns ≡ 0) ⊎ (rows ≡ 0)) }
    {
        if columns == 0 || rows == 0 {
            return None;
        }
        Some(Grid { columns, rows })
    }

    /// How many cells a row has.
    pub fn columns(self) -> u32
        ensures columns { result ≡ self.columns }
        ensures some { 1 ≤ result }
    {
        self.columns
    }

    /// How many rows there are at most.
    pub fn rows(self) -> u32
        ensures rows { result ≡ self.rows }
        ensures some { 1 ≤ result }
    {
        self.rows
    }
}
