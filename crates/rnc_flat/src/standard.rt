// Standard output, as a sink that keeps why it failed.
ghost use Rattle.std.specs.Prelude.{◌≡◌, false, is_some};

use crate::system_outputs::fault_of;
use rn_flat::WriteFault;
use rn_merge::{Failed, Sink};
use std::io::{Stdout, Write};

/// Standard output, and why it failed, if it did.
#[derive(Drop)]
pub struct Standard {
    out: Stdout,
    reason: Option<WriteFault>,
}

impl Standard {
    /// Standard output, which has not failed.
    pub fn new(rt: &HostRuntime) -> Standard
        ensures { ⟦<Standard as Sink>⟧.has_failed result ≡ false }
    {
        Standard {
            out: rt.stdout(),
            reason: None,
        }
    }

    /// Why it failed; `None` where it has not.
    pub fn reason(&self) -> Option<WriteFault> {
        self.reason
    }
}

impl Sink for Standard {
    ghost has_failed = { λ s. is_some s.reason };

    fn push(&mut self, piece: &[u8]) -> Result<usize, Failed> {
        match self.out.write(piece) {
            Ok(taken) => {
                if taken == 0 && !piece.is_empty() {
                    self.reason = Some(WriteFault::Refused);
                }
                Ok(taken)
            }
            Err(error) => {
                self.reason = Some(fault_of(&error));
                Err(Failed)
            }
        }
    }

    fn failed(&self) -> bool {
        self.reason.is_some()
    }
}
