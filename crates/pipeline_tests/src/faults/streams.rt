// Runs over bundles, with sources and sinks that fail at a known byte.
ghost use Rattle.std.specs.Prelude.{◌≡◌, false};

use crate::shared::comparing::{holds, same_bytes};
use crate::shared::given_texts::written_set;
use rn_assemble::Refusal;
use rn_merge::{
    Failed, ReadFault, RunFault, Sink, Source, Status, read_input, run_print, write_output,
};
use rn_modset::{BundleFault, write_bundle};
use std::alloc::Global;
use std::process::Abort;

/// A set.
pub const A: &str = "@a\nstart = doc doc |= element b { text }";

/// Another one, which adds to it.
pub const B: &str = "@b\ndoc |= element a { empty }";

/// The schema of both.
pub const PRINTED: &str =
    "default namespace = \"\"\nstart = doc\ndoc = element a { empty } | element b { text }\n";

/// A sink in memory that fails once it has taken as many bytes as it has room for.
#[derive(Drop)]
pub struct Room {
    /// The bytes that it took, in their order.
    pub taken: Vec<u8>,
    room: usize,
    failed: bool,
}

/// A sink with room for so many bytes, of which it holds none yet.
pub fn sink_of(alloc: Global, room: usize) -> Room
    ensures { result.failed ≡ false }
{
    Room {
        taken: Vec::new(alloc),
        room,
        failed: false,
    }
}

impl Sink for Room {
    ghost has_failed = { λ s. s.failed };

    fn push(&mut self, piece: &[u8]) -> Result<usize, Failed> {
        let given = piece.len().min(self.room.saturating_sub(self.taken.len()));
        if self.taken.extend_from_slice(&piece[..given]).is_err() {
            self.failed = true;
            return Err(Failed);
        }
        if given == 0 && !piece.is_empty() {
            self.failed = true;
        }
        Ok(given)
    }

    fn failed(&self) -> bool {
        self.failed
    }
}

/// A source of bytes, two at a time, that fails where it stands at a place.
#[derive(Drop)]
struct Bytes {
    left: &'static [u8],
    until_failure: usize,
    failed: bool,
    ended: bool,
}

fn source_of(left: &'static [u8], until_failure: usize) -> Bytes
    ensures failed { result.failed ≡ false }
    ensures ended { result.ended ≡ false }
{
    Bytes {
        left,
        until_failure,
        failed: false,
        ended: false,
    }
}

impl Source for Bytes {
    ghost has_failed = { λ s. s.failed };

    ghost has_ended = { λ s. s.ended };

    fn pull(&mut self, into: &mut [u8]) -> Result<usize, Failed> {
        if self.until_failure == 0 {
            self.failed = true;
            return Err(Failed);
        }
        let given = into
            .len()
            .min(self.left.len())
            .min(self.until_failure)
            .min(2);
        into[..given].copy_from_slice(&self.left[..given]);
        self.left = &self.left[given..];
        self.until_failure -= given;
        if given == 0 && !into.is_empty() {
            self.ended = true;
        }
        Ok(given)
    }

    fn failed(&self) -> bool {
        self.failed
    }

    fn ended(&self) -> bool {
        self.ended
    }
}

/// The bundles of one contribution each.
pub fn bundles(rt: &(impl Abort + AllocGlobal), given: &[&str]) -> Vec<Vec<u8>> {
    let mut bundles = Vec::new(rt.alloc());
    for one in given {
        let bundle = write_bundle(rt.alloc(), &written_set(rt, one)).expect(rt, "no memory");
        bundles.push(bundle).expect(rt, "no memory");
    }
    bundles
}

/// A run into a sink that has room for so many bytes gives it these, and has this answer.
fn runs(
    rt: &(impl Abort + AllocGlobal),
    given: &[Vec<u8>],
    room: usize,
    taken: &[u8],
    wanted: Result<Status, RunFault>,
) {
    let mut out = sink_of(rt.alloc(), room);
    let is_wanted = run_print(rt.alloc(), given, &mut out) == wanted;
    holds(rt, is_wanted, "the run has this answer");
    same_bytes(rt, out.taken.as_slice(), taken);
}

/// A run into a sink with much room gives it the whole schema.
fn prints(rt: &(impl Abort + AllocGlobal), given: &[&str]) {
    let given = bundles(rt, given);
    runs(
        rt,
        given.as_slice(),
        1000,
        PRINTED.as_bytes(),
        Ok(Status::Done),
    );
}

#[test]
fn bundles_are_merged_in_any_order(rt: HostRuntime) {
    prints(&rt, &[A, B, A]);
    prints(&rt, &[B, A, A]);
    prints(&rt, &[A, A, B]);
}

#[test]
fn a_sink_that_fails_has_the_bytes_before(rt: HostRuntime) {
    let given = bundles(&rt, &[A, B]);
    assert!(rt; PRINTED.len() == 82);
    for place in 0..82 {
        let front = &PRINTED.as_bytes()[..place];
        runs(&rt, given.as_slice(), place, front, Err(RunFault::Write));
    }
    runs(
        &rt,
        given.as_slice(),
        82,
        PRINTED.as_bytes(),
        Ok(Status::Done),
    );
}

#[test]
fn nothing_is_written_without_a_schema(rt: HostRuntime) {
    runs(&rt, &[], 1000, b"", Ok(Status::Refused(Refusal::NoStart)));
    let mut given = bundles(&rt, &[A, B]);
    let cut = Vec::from_slice(rt.alloc(), b"rncset 1\nend 0").expect(&rt, "no memory");
    given.push(cut).expect(&rt, "no memory");
    let index = 2;
    let fault = BundleFault::Truncated;
    let wanted = Err(RunFault::Bundle { index, fault });
    runs(&rt, given.as_slice(), 1000, b"", wanted);
}

#[test]
fn inputs_are_read_to_their_end(rt: HostRuntime) {
    let mut whole = source_of(b"five!", usize::MAX);
    let bytes = read_input(rt.alloc(), &mut whole, 5).expect(&rt, "the input is read");
    same_bytes(&rt, bytes.as_slice(), b"five!");
    holds(&rt, whole.ended() && !whole.failed(), "the input ends");
}

#[test]
fn long_and_broken_inputs_are_refused(rt: HostRuntime) {
    let mut long = source_of(b"five!", usize::MAX);
    let fault = read_input(rt.alloc(), &mut long, 4).err();
    holds(
        &rt,
        fault == Some(ReadFault::Large),
        "the input is too long",
    );
    let mut broken = source_of(b"five!", 3);
    let fault = read_input(rt.alloc(), &mut broken, 5).err();
    holds(&rt, fault == Some(ReadFault::Read), "the input breaks off");
}

#[test]
fn outputs_have_the_bytes_before_a_failure(rt: HostRuntime) {
    let mut out = sink_of(rt.alloc(), 3);
    let is_failed = write_output(&mut out, b"five!") == Err(Failed);
    holds(&rt, is_failed && out.failed(), "the output fails");
    same_bytes(&rt, out.taken.as_slice(), b"fiv");
}
