// A line of output: the question, the answer, and what it should be.
ghost use Rattle.std.specs.Prelude.{Some};
ghost use Rattle.vectors.specs.Line.{hex_text, truth_text, compared_text};

use std::fmt::Display;
use std::{fmt, io};

// A pixel or a colour, in hexadecimal.
#[derive(Clone, Copy)]
pub struct Hex(pub u32);

impl Display for Hex {
    ghost output = { λ h. Some (hex_text h.0) };

    fn fmt<W: fmt::Write>(&self, f: &mut fmt::Formatter<W>) -> fmt::Result {
        write!(f, "0x{:08x}", self.0)
    }
}

// A test's outcome.
#[derive(Clone, Copy)]
pub struct YesNo(pub bool);

impl Display for YesNo {
    ghost output = { λ t. Some (truth_text t.0) };

    fn fmt<W: fmt::Write>(&self, f: &mut fmt::Formatter<W>) -> fmt::Result {
        f.write_str(if self.0 { "yes" } else { "no" })
    }
}

// What came, and what should come.
#[derive(Clone, Copy, Drop)]
pub struct Compared<T> {
    pub got: T,
    pub should: T,
}

impl<T: Display> Display for Compared<T> {
    ghost output = { λ c. compared_text T.output c.got c.should };

    fn fmt<W: fmt::Write>(&self, f: &mut fmt::Formatter<W>) -> fmt::Result {
        write!(f, ": {}, should be {}", self.got, self.should)
    }
}

// No clause, here and below: std's `Print` does not say what it prints.
pub fn line<P: Print, T: Display + Drop>(
    rt: &P,
    asked: &[u8],
    got: T,
    should: T,
) -> io::Result<()> {
    rt.write_all(asked)?;
    rt.println(Compared { got, should })
}

// A line for each case.
pub fn lines<P: Print, T: Display + Copy>(rt: &P, cases: &[(&str, T, T)]) -> io::Result<()> {
    for (asked, got, should) in cases {
        line(rt, asked.as_bytes(), *got, *should)?;
    }
    Ok(())
}
