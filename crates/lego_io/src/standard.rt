//! Standard input as a source, and standard output as a sink. What they carry is trusted.

ghost use Rattle.std.specs.Prelude.{◌≡◌, ◌<◌, ◌≤◌, length, drop, None, IfOk, OnErr, vec_len};
ghost use Rattle.std.specs.Io.KnownBytes.{ReadConsumes};
ghost use Rattle.lego_io.specs.Count.{Rose, NeverFell};

use crate::sink::{Sink, WriteFault};
use crate::source::{PIECE_BYTES, ReadFault, Source};
use std::alloc::{AllocError, Global};
use std::io;
use std::io::Read;

/// Reads a runtime's standard input, at most 65,536 bytes a call. It does not tell what is left.
#[derive(Drop)]
pub struct StdSource<R> {
    reader: R,
    piece: Vec<u8>,
    faults: u64,
    ghost has_room: { 0 < vec_len piece },
}

impl<R: Read + Drop> StdSource<R> {
    /// Opens the standard input of this runtime. `AllocError` where there is no memory for a piece.
    pub fn new<I: Input<Reader = R>>(rt: &I, alloc: Global) -> Result<StdSource<R>, AllocError>
        ensures { IfOk result (λ source. ⟦<StdSource<R> as Source>⟧.faults source ≡ 0) }
    {
        Ok(StdSource {
            reader: rt.reader(),
            piece: vec![in alloc; 0u8; PIECE_BYTES]?,
            faults: 0,
        })
    }
}

impl<R: Read + Drop> Source for StdSource<R> {
    ghost remaining = { λ _. None };

    ghost faults = { λ s. s.faults };

    fn read(&mut self, buf: &mut [u8]) -> Result<usize, ReadFault>
        requires { 0 < length buf.old }
        ensures within { IfOk result (λ n. n ≤ length buf.old) }
        ensures behind { IfOk result (λ n. drop n buf.new ≡ drop n buf.old) }

        ensures fault_rose { OnErr result (Rose self.old.faults self.new.faults) }
        ensures never_fell { NeverFell self.old.faults self.new.faults }

        // Beyond what each source ensures: the bytes are the reader's, where it tells.
        ensures carried { ReadConsumes (R.remaining self.old.reader) (R.remaining self.new.reader) result buf.new }
    {
        match read_through(&mut self.reader, &mut self.piece, buf) {
            Ok(count) => Ok(count),
            Err(_) => {
                self.faults = self.faults.saturating_add(1);
                Err(ReadFault)
            }
        }
    }
}

/// Reads by way of `piece`, so that the buffer keeps its bytes behind those that were read.
fn read_through<R: Read>(reader: &mut R, piece: &mut [u8], buf: &mut [u8]) -> io::Result<usize>
    requires { 0 < length piece.old }
    ensures within { IfOk result (λ n. n ≤ length buf.old) }
    ensures behind { IfOk result (λ n. drop n buf.new ≡ drop n buf.old) }
    ensures carried { ReadConsumes (R.remaining reader.old) (R.remaining reader.new) result buf.new }
{
    let most = piece.len().min(buf.len());
    let count = reader.read(&mut piece[..most])?;
    buf[..count].copy_from_slice(&piece[..count]);
    Ok(count)
}

/// Writes to a runtime's standard output. It does not tell what it took.
#[derive(Drop)]
pub struct StdSink<P> {
    printer: P,
    faults: u64,
}

impl<P: Print + Drop> StdSink<P> {
    /// Opens the standard output of this runtime. It keeps nothing back, so it takes no memory and does not fail.
    pub fn new(rt: P, _alloc: Global) -> Result<StdSink<P>, AllocError>
        ensures { IfOk result (λ sink. ⟦<StdSink<P> as Sink>⟧.faults sink ≡ 0) }
    {
        Ok(StdSink {
            printer: rt,
            faults: 0,
        })
    }
}

impl<P: Print + Drop> Sink for StdSink<P> {
    ghost contents = { λ _. None };

    ghost faults = { λ s. s.faults };

    fn write(&mut self, bytes: &[u8]) -> Result<usize, WriteFault> {
        if bytes.is_empty() {
            return Ok(0);
        }
        match self.printer.write_some(bytes) {
            Ok(count) if count > 0 => Ok(count),
            _ => {
                self.faults = self.faults.saturating_add(1);
                Err(WriteFault)
            }
        }
    }
}
