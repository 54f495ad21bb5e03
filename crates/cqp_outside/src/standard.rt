//! Standard input and output. They tell no bytes: contracts see each as its count of faults.
ghost use Rattle.std.specs.Prelude.{◌≡◌, ◌<◌, ℕ, length, None};
ghost use Rattle.std.specs.Io.{ReadsAtMost};
ghost use Rattle.cqp_outside.specs.Causes.{HasCause, CountsErr};
ghost use Rattle.cqp_outside.specs.Taken.{WritesSome};

use crate::failed::Failed;
use crate::sink::Sink;
use crate::source::Source;
use std::io::{Read, Stdin, Stdout, Write};
use std::marker::Model;

/// Standard input as a source. Each error of a read is a fault.
#[derive(Drop)]
pub struct StdSource {
    input: Stdin,
    faults: u64,
}

impl Model for StdSource {
    ghost Value = { ℕ };

    ghost view = { λ s. s.faults };
}

impl StdSource {
    /// Standard input, with no fault yet.
    pub fn new(input: Stdin) -> Self
        ensures { result ≡ 0 }
    {
        Self { input, faults: 0 }
    }
}

impl Source for StdSource {
    ghost left = { λ _. None };

    ghost faults = { λ s. s };

    fn read(&mut self, buf: &mut [u8]) -> Result<usize, Failed>
        requires { 0 < length buf.old }
        ensures bound { ReadsAtMost result buf.new }
        ensures cause { HasCause self.old self.new result }
        ensures counts { CountsErr self.old self.new result }
    {
        match self.input.read(buf) {
            Ok(count) => Ok(count),
            Err(_) => {
                self.faults = self.faults.saturating_add(1);
                Err(Failed)
            }
        }
    }
}

/// Standard output as a sink. Each error of a write is a fault, and so is a write that takes
/// nothing.
#[derive(Drop)]
pub struct StdSink {
    output: Stdout,
    faults: u64,
}

impl Model for StdSink {
    ghost Value = { ℕ };

    ghost view = { λ s. s.faults };
}

impl StdSink {
    /// Standard output, with no fault yet.
    pub fn new(output: Stdout) -> Self
        ensures { result ≡ 0 }
    {
        Self { output, faults: 0 }
    }
}

impl Sink for StdSink {
    ghost written = { λ _. None };

    ghost faults = { λ s. s };

    fn write(&mut self, piece: &[u8]) -> Result<usize, Failed>
        requires { 0 < length piece.now }
        ensures bound { WritesSome result piece.now }
        ensures cause { HasCause self.old self.new result }
        ensures counts { CountsErr self.old self.new result }
    {
        match self.output.write(piece) {
            Ok(count) if 0 < count => Ok(count),
            _ => {
                self.faults = self.faults.saturating_add(1);
                Err(Failed)
            }
        }
    }
}
