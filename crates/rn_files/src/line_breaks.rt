// The lines of a text: where each ends, and which one a byte stands in.
ghost use Rattle.std.specs.Prelude.{◌≡◌, ◌+◌, ◌-◌, ◌<◌, ◌≤◌, ◌∷◌, [], length, slice_index, take, drop, MatchOption};
ghost use Rattle.rn_files.specs.TextLines.{closes, lines, StandsIn};
ghost use Rattle.rn_files.specs.inside.TextLines.{ClosesAt};

/// Where a byte of a text stands.
#[derive(Clone, Copy, Debug, PartialEq, Eq)]
pub struct Position {
    /// The number of the line, from 1.
    pub line: usize,
    /// The number of the character in the line, from 1.
    pub column: usize,
}

/// Whether a line ends behind the byte that the rest follows.
fn closes(byte: u8, rest: &[u8]) -> bool
    ensures { result ≡ closes byte rest.now }
{
    byte == b'\n' || (byte == b'\r' && !matches!(rest, [b'\n', ..]))
}

/// How many bytes the first line has with its end, if an end closes it.
fn first_line(bytes: &[u8]) -> Option<usize>
    ensures { MatchOption result (lines bytes.now ≡ bytes.now ∷ [])
        (λ n. ClosesAt bytes.now n (take n bytes.now) (drop n bytes.now)) }
{
    for (i, byte) in bytes.iter().enumerate() {
        if closes(*byte, &bytes[i + 1..]) {
            return Some(i + 1);
        }
    }
    None
}

/// The number, from 1, of the line in which the byte stands, and the byte where that line begins.
pub fn line_at(bytes: &[u8], at: usize) -> (usize, usize)
    ensures stands { StandsIn bytes.now at result.0 result.1 }
    ensures within { result.1 ≤ length bytes.now }
    ensures bounded { result.0 ≤ result.1 + 1 }
    ensures ascii { 0 < result.1 → slice_index bytes.now (result.1 - 1) < 128 }
{
    let mut number = 1;
    let mut start = 0;
    while let Some(length) = first_line(&bytes[start..]) {
        if at < start + length {
            return (number, start);
        }
        number += 1;
        start += length;
    }
    (number, start)
}
