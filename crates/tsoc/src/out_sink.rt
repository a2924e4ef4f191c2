// A writer as a sink, which counts its faults and tells nothing else.
ghost use Rattle.std.specs.Prelude.{None, IfOk};
ghost use Rattle.tso_outside.specs.Views.{Takes};

use crate::file_store::taken;
use std::io::{self, Write};
use tso_outside::{Failed, Sink};

/// Standard output, or any other writer.
#[derive(Drop)]
pub struct OutSink<W: Write + Drop> {
    out: W,
    faults: u64,
}

impl<W: Write + Drop> OutSink<W> {
    pub fn new(out: W) -> Self {
        OutSink { out, faults: 0 }
    }
}

fn put_to<W: Write>(out: &mut W, piece: &[u8]) -> io::Result<usize>
    ensures { IfOk result (λ n. Takes piece.now n) }
{
    let count = out.write(piece)?;
    taken(count, piece)
}

impl<W: Write + Drop> Sink for OutSink<W> {
    ghost use Rattle.tso_outside.specs.Views.{SinkView};

    ghost view = { λ s. record { bytes = None; faults = s.faults } };

    fn put(&mut self, piece: &[u8]) -> Result<usize, Failed> {
        match put_to(&mut self.out, piece) {
            Ok(count) => Ok(count),
            Err(_) => {
                self.faults = self.faults.saturating_add(1);
                Err(Failed)
            }
        }
    }
}
