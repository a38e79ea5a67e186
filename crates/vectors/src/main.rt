// Runs document 01's "Numbers to check by" and the records of the file `stdin` through the library's own functions. Each
// line says what was asked, what came and what should come; the file `stdout` beside src/ holds what document 01 says.
// tools/vector_records.py writes both files.
#![tactic(auto)]

mod line;
mod numbers;
mod plays;
mod records;

use std::io;

fn main(rt: HostRuntime) -> io::Result<()> {
    numbers::blends(&rt)?;
    numbers::uncut(&rt)?;
    numbers::whole_pixels(&rt)?;
    numbers::raster(&rt)?;
    numbers::terms(&rt)?;
    numbers::needs_source(&rt)?;
    numbers::widths(&rt)?;
    numbers::row_lengths(&rt)?;
    numbers::source_positions(&rt)?;
    numbers::mask_places(&rt)?;
    numbers::channel_masks(&rt)?;
    numbers::halves(&rt)?;
    plays::whole(&rt)?;
    plays::refused(&rt)?;
    plays::blends(&rt)?;
    plays::masked(&rt)?;
    plays::copied(&rt)?;
    plays::picked(&rt)?;
    plays::stretches(&rt)?;
    let mut stdin = rt.stdin();
    records::all(&rt, &mut stdin)
}
