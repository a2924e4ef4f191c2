// A sink in memory. It takes few bytes at a time, and fails at the calls that it is told to.
ghost use Rattle.std.specs.Prelude.{◌<◌};

use crate::files::is_failing;
use crate::{Failed, Sink};
use std::alloc::Global;

/// Bytes in memory, all of them told.
#[derive(Drop)]
pub struct MemSink {
    /// The bytes that were put so far.
    pub bytes: Vec<u8>,
    /// The most bytes that one call takes.
    pub grain: u32,
    /// The numbers of the calls that fail, counted from 0.
    pub failing: Vec<u64>,
    /// The calls so far.
    pub calls: u64,
    pub faults: u64,
    ghost some_grain: { 0 < grain },
}

impl MemSink {
    ghost use Rattle.tso_outside.specs.SinkCalls.{OpensSink};

    /// An empty sink, before its first call.
    pub fn made(alloc: Global, grain: u32, failing: Vec<u64>) -> MemSink
        requires { 0 < grain }
        ensures { OpensSink grain failing.items result }
    {
        MemSink {
            bytes: Vec::new(alloc),
            grain,
            failing,
            calls: 0,
            faults: 0,
        }
    }
}

impl Sink for MemSink {
    ghost use Rattle.std.specs.Prelude.{IsErr, IfOk, length, min, ◌≡◌};
    ghost use Rattle.tso_outside.specs.Views.{Puts};
    ghost use Rattle.tso_outside.specs.SinkCalls.{CountsPut, IsPutDue, PutEnds, sink_view};

    ghost view = { sink_view };

    /// Call number n fails where n is among `failing`, else only where memory lacks.
    fn put(&mut self, piece: &[u8]) -> Result<usize, Failed>
        ensures puts { Puts (sink_view self.old) (sink_view self.new) piece.now result }
        ensures counts { CountsPut self.old self.new }
        ensures due { IsPutDue self.old → IsErr result }
        ensures takes { IfOk result (λ n. n ≡ min self.old.grain (length piece.now)) }
        ensures faults { PutEnds self.old self.new.faults result }
    {
        let count = piece.len().min(self.grain as usize);
        if !is_failing(&mut self.calls, &self.failing) {
            if let Ok(()) = self.bytes.extend_from_slice(&piece[..count]) {
                return Ok(count);
            }
        }
        self.faults = self.faults.saturating_add(1);
        Err(Failed)
    }
}
