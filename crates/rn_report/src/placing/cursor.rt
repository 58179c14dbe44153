// Lines and columns of many bytes of a text, found in one walk.
use rn_files::Position;

/// A byte of a text with its line and column, from which those of later bytes are found.
#[derive(Clone, Copy)]
pub struct Cursor<'t> {
    bytes: &'t [u8],
    at: usize,
    position: Position,
}

impl<'t> Cursor<'t> {
    /// At the first byte of a text.
    pub fn new(text: &'t str) -> Cursor<'t> {
        Cursor {
            bytes: text.as_bytes(),
            at: 0,
            position: Position { line: 1, column: 1 },
        }
    }

    /// Goes on to a byte, if it is a later one, and answers its line and column, as `rn_files::position` has them.
    pub fn go_to(&mut self, at: usize) -> Position {
        for index in self.at..at.min(self.bytes.len()) {
            self.position = behind(self.position, self.bytes, index);
        }
        self.at = self.at.max(at);
        self.position
    }
}

/// The position behind a byte that has this one. Lines end by LF, CR LF or CR; columns count characters.
fn behind(position: Position, bytes: &[u8], index: usize) -> Position {
    let Some(byte) = bytes.get(index) else {
        return position;
    };
    let after = bytes.get(index.saturating_add(1));
    if *byte == b'\n' || (*byte == b'\r' && after != Some(&b'\n')) {
        return Position {
            line: position.line.saturating_add(1),
            column: 1,
        };
    }
    let is_continuation = *byte & 0xC0 == 0x80;
    Position {
        line: position.line,
        column: position
            .column
            .saturating_add(if is_continuation { 0 } else { 1 }),
    }
}
