// Numbers as sentences show them.
ghost use Rattle.std.specs.Prelude.{Some};
ghost use Rattle.rn_outline.specs.GroupedDigits.{grouped_digits};

use std::fmt::{self, Display};

/// A number as sentences show it: its digits in threes from the right, with a comma between each two threes.
#[derive(Clone, Copy, Debug, PartialEq, Eq)]
pub struct Grouped(pub usize);

impl Display for Grouped {
    ghost output = { λ x. Some (grouped_digits x.0) };

    fn fmt<W: fmt::Write>(&self, f: &mut fmt::Formatter<W>) -> fmt::Result {
        let Grouped(number) = *self;
        if number < 1_000 {
            return write!(f, "{number}");
        }
        let thousands = Grouped(number / 1_000);
        thousands.fmt(f)?;
        let last = number % 1_000;
        write!(f, ",{last:03}")
    }
}
