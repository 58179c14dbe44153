// The bodies of definitions that an except may hold, cut into what is copied and what is replaced.
ghost use Rattle.std.specs.Prelude.{◌<◌, length, IfOk};
ghost use Rattle.rn_text.specs.Reading.{Advanced};

use crate::added_prefixes::split_name;
use rn_outline::{FilePart, FilePartKind, Span, annotation_end};
use rn_scopes::Units;
use rn_text::{Token, tokens};
use std::alloc::{AllocError, Global};
use std::collections::BTreeMap;

/// A piece of a body.
#[derive(Drop)]
pub(crate) enum Chunk {
    /// Tokens, with spaces between.
    Text(String),
    /// A datatype with a prefix.
    Datatype {
        prefix: String,
        local: String,
    },
    /// A part, which is replaced.
    Link {
        /// The index of the part in its file.
        part: usize,
        /// Whether it is all that is excepted from data: it is right after a `-`.
        is_excepted: bool,
    },
}

#[derive(Drop)]
pub(crate) struct BodyChunks {
    bodies: Vec<Vec<Chunk>>,
    /// The index of each body, by the file and the part of its definition.
    numbers: BTreeMap<(usize, usize), usize>,
}

impl BodyChunks {
    pub(crate) fn new(alloc: Global) -> Self {
        BodyChunks {
            bodies: Vec::new(alloc),
            numbers: BTreeMap::new(alloc),
        }
    }

    /// A chunk of a body.
    pub(crate) fn chunk(&self, body: usize, chunk: usize) -> Option<&Chunk> {
        self.bodies.get(body)?.get(chunk)
    }

    /// The part that a body is, where it is nothing else.
    pub(crate) fn lone_part(&self, body: usize) -> Option<usize> {
        match self.bodies.get(body)?.as_slice() {
            [Chunk::Link { part, .. }] => Some(*part),
            _ => None,
        }
    }

    /// The index of the body of a definition.
    pub(crate) fn number(
        &mut self,
        alloc: Global,
        units: &Units<'_>,
        file: usize,
        part: usize,
    ) -> Result<usize, AllocError> {
        if let Some(number) = self.numbers.get(&(file, part)) {
            return Ok(*number);
        }
        let number = self.bodies.len();
        self.bodies.push(chunks(alloc, units, file, part)?)?;
        self.numbers.insert((file, part), number)?;
        Ok(number)
    }
}

/// The chunks of the body of a definition.
fn chunks(
    alloc: Global,
    units: &Units<'_>,
    file: usize,
    part: usize,
) -> Result<Vec<Chunk>, AllocError> {
    let Some(given) = units.files.get(file) else {
        return Ok(Vec::new(alloc));
    };
    let outline = given.file.outline;
    let parts = outline.parts.as_slice();
    let body = match parts.get(part) {
        Some(part) => body_of(part),
        None => Span { from: 0, to: 0 },
    };
    let text = given.file.text.get(body.from..body.to).unwrap_or("");
    let Ok(tokens) = tokens(alloc, text.as_bytes()) else {
        return Err(AllocError);
    };
    let mut cutter = Cutter {
        chunks: Vec::new(alloc),
        from: body.from,
        next: part.saturating_add(1),
    };
    cutter.cut(alloc, parts, tokens.as_slice())?;
    Ok(cutter.chunks)
}

fn body_of(part: &FilePart) -> Span {
    match &part.kind {
        FilePartKind::Define { body, .. } | FilePartKind::Start { body, .. } => *body,
        _ => part.at,
    }
}

/// Cuts the tokens of a body.
#[derive(Drop)]
struct Cutter {
    chunks: Vec<Chunk>,
    /// Where the body begins in its file.
    from: usize,
    /// The index of the next part.
    next: usize,
}

impl Cutter {
    fn cut(
        &mut self,
        alloc: Global,
        parts: &[FilePart],
        tokens: &[Token<'_>],
    ) -> Result<(), AllocError> {
        let mut at = 0;
        'tokens: while at < tokens.len() {
            at = self.step(alloc, parts, tokens, at)?;
        }
        Ok(())
    }

    /// Cuts off what begins with a token: what follows that.
    fn step(
        &mut self,
        alloc: Global,
        parts: &[FilePart],
        tokens: &[Token<'_>],
        at: usize,
    ) -> Result<usize, AllocError>
        requires { at < length tokens.now }
        ensures { IfOk result (λ r. Advanced at r (length tokens.now)) }
    {
        if let Some(end) = annotation_end(tokens, at) {
            return Ok(end);
        }
        let token = &tokens[at];
        let begin = self.from.saturating_add(token.start);
        if let Some(part) = self.part_at(parts, begin) {
            let is_excepted = self.is_after_minus();
            self.chunks.push(Chunk::Link {
                part: self.next,
                is_excepted,
            })?;
            self.next = self.next.saturating_add(1);
            return Ok(token_behind(tokens, at, part.at.to.saturating_sub(self.from)));
        }
        self.push(alloc, token)?;
        Ok(at + 1)
    }

    /// The part that begins at a byte.
    fn part_at<'p>(&mut self, parts: &'p [FilePart], begin: usize) -> Option<&'p FilePart> {
        for part in parts.get(self.next..)? {
            if part.at.from >= begin {
                return if part.at.from == begin {
                    Some(part)
                } else {
                    None
                };
            }
            self.next = self.next.saturating_add(1);
        }
        None
    }

    /// Whether the last token is a `-`, after which one pattern alone may be.
    fn is_after_minus(&self) -> bool {
        match self.chunks.last() {
            Some(Chunk::Text(text)) => text.as_str().ends_with('-'),
            _ => false,
        }
    }

    fn push(&mut self, alloc: Global, token: &Token<'_>) -> Result<(), AllocError> {
        if let Some((prefix, local)) = split_name(token) {
            self.push_text(alloc, " ")?;
            self.chunks.push(Chunk::Datatype {
                prefix: String::from_str(alloc, prefix)?,
                local: String::from_str(alloc, local)?,
            })?;
            return Ok(());
        }
        self.push_text(alloc, " ")?;
        self.push_text(alloc, token.text)
    }

    /// Adds to the text at the end.
    fn push_text(&mut self, alloc: Global, text: &str) -> Result<(), AllocError> {
        if let Some(Chunk::Text(last)) = self.chunks.last_mut() {
            return last.push_str(text);
        }
        self.chunks
            .push(Chunk::Text(String::from_str(alloc, text)?))?;
        Ok(())
    }
}

/// The first token after one that does not begin before a byte.
fn token_behind(tokens: &[Token<'_>], at: usize, byte: usize) -> usize
    requires { at < length tokens.now }
    ensures { Advanced at result (length tokens.now) }
{
    for number in at + 1..tokens.len() {
        if tokens[number].start >= byte {
            return number;
        }
    }
    tokens.len()
}
