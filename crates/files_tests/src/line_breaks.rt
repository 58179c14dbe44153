// Lines and columns of bytes.
use crate::comparing::{holds, same_for};
use rn_files::{Position, line_of, position};

/// A text, the place of a byte, and its line, its column and the text of its line.
static POSITIONS: [(&str, usize, usize, usize, &str); 19] = [
    ("", 0, 1, 1, ""),
    ("", 7, 1, 1, ""),
    ("ab", 0, 1, 1, "ab"),
    ("ab", 1, 1, 2, "ab"),
    ("ab", 9, 1, 3, "ab"),
    ("a\nb", 1, 1, 2, "a"),
    ("a\nb", 2, 2, 1, "b"),
    ("a\n", 2, 2, 1, ""),
    ("a\r\nb", 1, 1, 2, "a"),
    ("a\r\nb", 2, 1, 3, "a"),
    ("a\r\nb", 3, 2, 1, "b"),
    ("a\rb", 2, 2, 1, "b"),
    ("\n\r\r\nx", 4, 4, 1, "x"),
    ("é€𝄞x", 9, 1, 4, "é€𝄞x"),
    ("\u{2028}\u{85}x", 5, 1, 3, "\u{2028}\u{85}x"),
    ("\u{FEFF}ab", 0, 1, 1, "\u{FEFF}ab"),
    ("\u{FEFF}ab", 4, 1, 2, "\u{FEFF}ab"),
    ("\u{FEFF}a\nb", 5, 2, 1, "b"),
    ("a\n\u{FEFF}b", 5, 2, 2, "\u{FEFF}b"),
];

#[test]
fn bytes_have_their_line_and_column(rt: HostRuntime) {
    for (text, at, line, column, whole) in &POSITIONS {
        let wanted = Position {
            line: *line,
            column: *column,
        };
        holds(&rt, position(text, *at) == wanted, text);
        same_for(&rt, text, line_of(text, *at), whole);
    }
}
