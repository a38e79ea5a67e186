// The palette: 256 colours, black before it is filled from the table's entries.
ghost use Rattle.std.specs.Prelude.{◌≡◌, ◌*◌, ◌≤◌, length};
ghost use Rattle.sample.specs.At.{Colours};
ghost use Rattle.sample.specs.Palette.{palette_of};

// `table` begins with n entries of four bytes; how many is a number beside it, since a header part's rest is handed over. The palette is an
// array with `Colours` as a clause, and no type of its own, as `picture::palette` and `fetch::row`, which are named in docs/, hand it out and
// take it as one.
pub fn read(table: &[u8], n: usize) -> [u32; 256]
    requires { (n ≤ 256) × (n * 4 ≤ length table.now) }
    ensures { (result ≡ palette_of table.now n) × Colours result }
{
    let mut colours = [0u32; 256];
    words::fill::by_place(&mut colours[..n], |k| words::load::<3>(table, k * 4));
    colours
}
