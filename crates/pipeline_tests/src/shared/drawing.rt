// What tests draw.
ghost use Rattle.std.specs.Prelude.{◌<◌};

/// Numbers that are drawn one after the other, the same ones in each run.
#[derive(Drop)]
pub struct Draw {
    state: u64,
}

impl Draw {
    /// The first number isn't drawn yet.
    pub fn new() -> Draw {
        Draw { state: 1 }
    }

    /// A number below the count.
    pub fn below(&mut self, count: u64) -> u64
        requires { 0 < count }
        ensures { result < count }
    {
        let next = self.state.wrapping_mul(6364136223846793005);
        self.state = next.wrapping_add(1442695040888963407);
        (self.state >> 33) % count
    }
}
