// A row's bytes, and the number that they hold for a pixel smaller than a byte: a function for each of the definitions `stored1` and `stored4`,
// which take the high bit and the high half by other sums.
ghost use Rattle.std.specs.Prelude.{◌≡◌, ◌+◌, ◌*◌, ◌≤◌, ◌<◌, length};
ghost use Rattle.sample.specs.Stored.{stored1, stored4, stored_row, row_bytes};

#[tactic(auto, unfolding(crate::specs::Stored::stored1))]
pub fn bit(row: &[u8], column: usize) -> u32
    requires { column < length row.now * 8 }
    ensures { (result ≡ stored1 row.now column) × (result < 2) }
{
    let byte = u32::from(row[column / 8]);
    let shift = (7 - column % 8) as u32;
    (byte >> shift) % 2
}

#[tactic(auto, unfolding(crate::specs::Stored::stored4))]
pub fn half(row: &[u8], column: usize) -> u32
    requires { column < length row.now * 2 }
    ensures { (result ≡ stored4 row.now column) × (result < 16) }
{
    let byte = u32::from(row[column / 2]);
    if column % 2 == 0 {
        byte / 16
    } else {
        byte % 16
    }
}

// The stored row of the picture's row.
#[tactic(auto, unfolding(crate::specs::Stored::stored_row))]
pub fn row_at(top_down: bool, rows: u32, row: u32) -> u32
    requires { row < rows }
    ensures { (result ≡ stored_row top_down rows row) × (result < rows) }
{
    if top_down { row } else { rows - 1 - row }
}

// The bytes of a stored row.
#[tactic(auto, unfolding(crate::specs::Stored::row_bytes))]
pub fn row_bytes(bytes: &[u8], long: usize, row: usize) -> &[u8]
    requires { (row + 1) * long ≤ length bytes.now }
    ensures { result.now ≡ row_bytes bytes.now long row }
{
    words::part(bytes, row * long, long)
}
