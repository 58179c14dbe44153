// How a job ends that was done.
ghost use Rattle.std.specs.Prelude.{◌≡◌};
ghost use Rattle.rn_flat.specs.FlatFaults.{ending_status};

/// How a job ends that was done.
#[derive(Debug, Drop, PartialEq, Eq)]
pub enum Ending {
    /// There is nothing to be told.
    Clean,
    /// What was written tells of a fault: of definitions that the start doesn't reach, or of files that refer to
    /// themselves. With it the lines that say what else is to be told, each with its line end.
    Found(String),
}

/// The status with which the program ends when a job is done: 1 where a fault was found, else 0.
pub fn ending_status(ending: &Ending) -> u8
    ensures { result ≡ ending_status ending.now }
{
    match ending {
        Ending::Clean => 0,
        Ending::Found(_) => 1,
    }
}
