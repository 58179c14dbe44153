// What the files of a job are read from, the system or another source, and reading them in order.
ghost use Rattle.std.specs.Prelude.{◌≡◌, ℕ, List, IfOk, IfErr, map, string_bytes};
ghost use Rattle.std.specs.List.{AllZip};
ghost use Rattle.rn_merge.specs.Runs.{bundles_view};
ghost use Rattle.rn_merge.specs.declared.streams.ReadFault.{ReadFault};
ghost use Rattle.rnc_merge.specs.Inputs.{IsInputFault, input_fault};

use rn_merge::{Input, MAX_INPUT, ProgramFault, ReadFault, STANDARD_INPUT, read_input};
use std::alloc::Global;
use std::fs::File;

/// What files are read from, by path.
pub trait Inputs {
    // What may be read at the path; a type that says nothing allows all.
    ghost gives: { Self → List ℕ → List ℕ → Type 0 } = { λ _ _ _. Unit {0} };

    // Why nothing may be read at the path.
    ghost refuses: { Self → List ℕ → ReadFault → Type 0 } = { λ _ _ _. Unit {0} };

    /// All bytes of the file at the path. `Read` where it can't be opened or read, `Large` where it
    /// has more than [`rn_merge::MAX_INPUT`] bytes, `Memory` where a request for memory was refused.
    fn read(&self, alloc: Global, path: &str) -> Result<Vec<u8>, ReadFault>
        ensures given { IfOk result (λ bytes. gives self.now path.now bytes.items) }
        ensures refused { IfErr result (refuses self.now path.now) };
}

/// The files of the system; [`STANDARD_INPUT`] is standard input.
#[derive(Drop)]
pub struct System<'a> {
    /// What asks the system.
    pub rt: &'a HostRuntime,
}

impl Inputs for System<'_> {
    fn read(&self, alloc: Global, path: &str) -> Result<Vec<u8>, ReadFault> {
        if path == STANDARD_INPUT {
            return read_input(alloc, &mut Input::new(self.rt.stdin()), MAX_INPUT);
        }
        match File::open(self.rt, path) {
            Ok(opened) => read_input(alloc, &mut Input::new(opened), MAX_INPUT),
            Err(_) => Err(ReadFault::Read),
        }
    }
}

/// The bytes of all files, in order; or the fault of the first that can't be read, with its index,
/// or `Memory`.
pub fn read_files<I: Inputs>(
    alloc: Global,
    inputs: &I,
    files: &[String],
) -> Result<Vec<Vec<u8>>, ProgramFault>
    ensures given { IfOk result (λ read. AllZip (I.gives inputs.now) (map string_bytes files.now)
        (bundles_view read.items)) }
    ensures refused { IfErr result (IsInputFault (I.gives inputs.now) (I.refuses inputs.now)
        (map string_bytes files.now)) }
{
    let mut read = Vec::with_capacity(alloc, files.len())?;
    for (index, file) in files.iter().enumerate() {
        let bytes = read_file(alloc, inputs, index, file.as_str())?;
        read.push(bytes)?;
    }
    Ok(read)
}

/// The bytes of the file that has this index in its job, or the fault of the program where it can't
/// be read.
pub fn read_file<I: Inputs>(
    alloc: Global,
    inputs: &I,
    index: usize,
    file: &str,
) -> Result<Vec<u8>, ProgramFault>
    ensures given { IfOk result (λ bytes. I.gives inputs.now file.now bytes.items) }
    ensures refused { IfErr result (λ fault. (why : ReadFault) × I.refuses inputs.now file.now why
        × (fault ≡ input_fault index why)) }
{
    match inputs.read(alloc, file) {
        Ok(bytes) => Ok(bytes),
        Err(why) => Err(input_fault(index, why)),
    }
}

/// The fault of the program where the file with this index isn't read.
fn input_fault(index: usize, why: ReadFault) -> ProgramFault
    ensures { result ≡ input_fault index why }
{
    match why {
        ReadFault::Read => ProgramFault::Read(index),
        ReadFault::Large => ProgramFault::Large(index),
        ReadFault::Memory => ProgramFault::Memory,
    }
}
