// Sources that bytes are pulled from, sinks that they are pushed to, and reading and writing all bytes of one.
ghost use Rattle.std.specs.Prelude.{◌≡◌, ◌≤◌, ◌<◌, ◌||◌, ℕ, Bool, true, false, List, length, Option, None, IfOk, IfErr, OnOk, OnErr, is_err, vec_len};
ghost use Rattle.std.specs.Io.KnownBytes.{WriteAppends, ReadConsumes, Consumes, Appends, IsAtEnd};
ghost use Rattle.rn_merge.specs.Streams.{AppendsFront, IsReadFault, ends_input, refuses_piece};
ghost use Rattle.rn_merge.specs.declared.streams.TheConstants.{MAX_INPUT};

use std::alloc::{AllocError, Global};
use std::io::{Read, Write};
use thiserror::Error;

/// How many bytes are asked for at once.
const PIECE: usize = 65_536;

/// The most bytes of one input.
pub const MAX_INPUT: usize = 268_435_456;

/// A source or a sink did not do what it was asked for.
#[derive(Clone, Copy, Debug, PartialEq, Eq, Error)]
#[error("the source or the sink failed")]
pub struct Failed;

/// Why no input was read.
#[derive(Clone, Copy, Debug, PartialEq, Eq, Error)]
pub enum ReadFault {
    /// The source failed.
    #[error("the input can't be read")]
    Read,
    /// The source gave more bytes than the limit.
    #[error("the input is too large")]
    Large,
    /// A request for memory was refused.
    #[error("out of memory")]
    Memory,
}

/// What bytes are pulled from.
pub trait Source {
    // The bytes that are left, where the type says which.
    ghost remaining: { Self → Option (List ℕ) } = { λ _. None };

    // Whether a pull has failed.
    ghost has_failed: { Self → Bool };

    // Whether a pull has found the end.
    ghost has_ended: { Self → Bool };

    /// Puts the next bytes at the front of `into`, and answers how many. None into a place that is
    /// not empty says that the source has ended; one that fails gives none.
    fn pull(&mut self, into: &mut [u8]) -> Result<usize, Failed>
        ensures within { IfOk result (λ n. n ≤ length into.new) }
        ensures bytes { ReadConsumes (remaining self.old) (remaining self.new) result into.new }
        ensures failed { has_failed self.new ≡ (has_failed self.old || is_err result) }
        ensures ended { has_ended self.new ≡ (has_ended self.old || ends_input result into.new) };

    /// Whether a pull has failed.
    fn failed(&self) -> bool
        ensures { result ≡ has_failed self.now };

    /// Whether a pull has found the end.
    fn ended(&self) -> bool
        ensures { result ≡ has_ended self.now };
}

/// What bytes are pushed to.
pub trait Sink {
    // The bytes that were taken, where the type says which.
    ghost contents: { Self → Option (List ℕ) } = { λ _. None };

    // Whether a push has failed.
    ghost has_failed: { Self → Bool };

    /// Takes bytes from the front of `piece`, and answers how many. A sink that fails takes none;
    /// one that takes none of a piece that is not empty has failed.
    fn push(&mut self, piece: &[u8]) -> Result<usize, Failed>
        ensures within { IfOk result (λ n. n ≤ length piece.now) }
        ensures bytes { WriteAppends (contents self.old) (contents self.new) result piece.now }
        ensures failed { has_failed self.new
            ≡ (has_failed self.old || refuses_piece result piece.now) };

    /// Whether a push has failed.
    fn failed(&self) -> bool
        ensures { result ≡ has_failed self.now };
}

/// A reader as a source. Each error of the reader is a failure.
#[derive(Drop)]
pub struct Input<R: Read + Drop> {
    reader: R,
    failed: bool,
    ended: bool,
}

impl<R: Read + Drop> Input<R> {
    /// A source that has neither failed nor ended. It takes no memory.
    pub fn new(reader: R) -> Input<R>
        ensures remaining { ⟦<Input<R> as Source>⟧.remaining result ≡ R.remaining reader }
        ensures failed { ⟦<Input<R> as Source>⟧.has_failed result ≡ false }
        ensures ended { ⟦<Input<R> as Source>⟧.has_ended result ≡ false }
    {
        Input {
            reader,
            failed: false,
            ended: false,
        }
    }
}

impl<R: Read + Drop> Source for Input<R> {
    ghost remaining = { λ s. R.remaining s.reader };

    ghost has_failed = { λ s. s.failed };

    ghost has_ended = { λ s. s.ended };

    fn pull(&mut self, into: &mut [u8]) -> Result<usize, Failed> {
        match self.reader.read(into) {
            Ok(given) => {
                if given == 0 && !into.is_empty() {
                    self.ended = true;
                }
                Ok(given)
            }
            Err(_) => {
                self.failed = true;
                Err(Failed)
            }
        }
    }

    fn failed(&self) -> bool {
        self.failed
    }

    fn ended(&self) -> bool {
        self.ended
    }
}

/// A writer as a sink. Each error of the writer is a failure.
#[derive(Drop)]
pub struct Output<W: Write + Drop> {
    writer: W,
    failed: bool,
}

impl<W: Write + Drop> Output<W> {
    /// A sink that has not failed. It takes no memory.
    pub fn new(writer: W) -> Output<W>
        ensures contents { ⟦<Output<W> as Sink>⟧.contents result ≡ W.contents writer }
        ensures failed { ⟦<Output<W> as Sink>⟧.has_failed result ≡ false }
    {
        Output {
            writer,
            failed: false,
        }
    }
}

impl<W: Write + Drop> Sink for Output<W> {
    ghost contents = { λ s. W.contents s.writer };

    ghost has_failed = { λ s. s.failed };

    fn push(&mut self, piece: &[u8]) -> Result<usize, Failed> {
        match self.writer.write(piece) {
            Ok(taken) => {
                if taken == 0 && !piece.is_empty() {
                    self.failed = true;
                }
                Ok(taken)
            }
            Err(_) => {
                self.failed = true;
                Err(Failed)
            }
        }
    }

    fn failed(&self) -> bool {
        self.failed
    }
}

/// All bytes that a source gives until it ends, at most `limit` of them, which is at most
/// [`MAX_INPUT`]. The source has neither failed nor ended before. `Read` where the source has
/// failed, `Large` where it gave more than `limit` bytes. After either, the bytes that it gave are
/// lost, and the source has moved past them.
pub fn read_input<S: Source>(
    alloc: Global,
    source: &mut S,
    limit: usize,
) -> Result<Vec<u8>, ReadFault>
    requires limit { limit ≤ MAX_INPUT }
    requires fresh { S.has_failed source.old ≡ false }
    requires unended { S.has_ended source.old ≡ false }
    ensures bytes { IfOk result
        (λ v. Consumes (S.remaining source.old) (S.remaining source.new) v.items) }
    ensures few { IfOk result (λ v. length v.items ≤ limit) }
    ensures whole { OnOk result (IsAtEnd (S.remaining source.new)) }
    ensures ended { OnOk result (S.has_ended source.new ≡ true) }
    ensures sound { OnOk result (S.has_failed source.new ≡ false) }
    ensures err { IfErr result (IsReadFault (S.remaining source.old) (S.remaining source.new)
        (S.has_failed source.new) limit) }
{
    let Ok(mut piece) = room(alloc) else {
        return Err(ReadFault::Memory);
    };
    let mut bytes = Vec::new(alloc);
    loop {
        let given = match source.pull(piece.as_mut_slice()) {
            Ok(given) => given,
            Err(Failed) => return Err(ReadFault::Read),
        };
        if given == 0 {
            bytes.shrink_to_fit();
            return Ok(bytes);
        }
        if given > limit - bytes.len() {
            return Err(ReadFault::Large);
        }
        if bytes.extend_from_slice(&piece[..given]).is_err() {
            return Err(ReadFault::Memory);
        }
    }
}

/// Room for the bytes of one pull.
fn room(alloc: Global) -> Result<Vec<u8>, AllocError>
    ensures { IfOk result (λ v. 0 < vec_len v) }
{
    vec![in alloc; 0u8; PIECE]
}

/// Writes all bytes to a sink that has not failed. `Failed` where the sink has then failed; it took
/// a front of the bytes.
pub fn write_output<W: Sink>(out: &mut W, bytes: &[u8]) -> Result<(), Failed>
    requires { W.has_failed out.old ≡ false }
    ensures ok { OnOk result (Appends (W.contents out.old) (W.contents out.new) bytes.now) }
    ensures sound { OnOk result (W.has_failed out.new ≡ false) }
    ensures err { OnErr result (W.has_failed out.new ≡ true) }
    ensures front { AppendsFront (W.contents out.old) (W.contents out.new) bytes.now }
{
    let mut rest = bytes;
    while !rest.is_empty() {
        let taken = out.push(rest)?;
        if taken == 0 {
            return Err(Failed);
        }
        rest = &rest[taken..];
    }
    Ok(())
}
