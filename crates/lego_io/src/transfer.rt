//! All bytes of a source, and all of some bytes to a sink.

ghost use Rattle.std.specs.Prelude.{◌≡◌, ◌+◌, ◌<◌, ◌≤◌, ◌++◌, length, IfSome, IfOk, OnOk, OnErr, IsErrOf};
ghost use Rattle.std.specs.Io.KnownBytes.{append_known};
ghost use Rattle.lego_io.specs.Count.{Rose, NeverFell};
ghost use Rattle.lego_io.specs.Source.{ended, GavePart};
ghost use Rattle.lego_io.specs.Sink.{TookPart};
ghost use Rattle.lego_io.specs.declared.transfer.ReadAllFault.TheVariants.{NoMemory};

use crate::sink::{Sink, WriteFault};
use crate::source::{PIECE_BYTES, ReadFault, Source};
use std::alloc::{AllocError, Global};
use thiserror::Error;

/// Why the bytes of a source were not read to their end.
#[derive(Clone, Copy, Debug, PartialEq, Eq, Error)]
pub enum ReadAllFault {
    /// A read failed, and the source's count of faults rose.
    #[error("a read failed")]
    Read,
    /// The source holds more bytes than were allowed.
    #[error("the input is too long")]
    TooLong,
    /// Memory ran out.
    #[error("out of memory")]
    NoMemory,
}

impl From<AllocError> for ReadAllFault {
    ghost from_gives = { λ _ e. e ≡ NoMemory };

    fn from(_e: AllocError) -> ReadAllFault {
        ReadAllFault::NoMemory
    }
}

/// Reads all bytes of the source to its end. `TooLong` where they are more than `most`, `Read` where a read failed,
/// `NoMemory` where there is no memory for them.
pub fn read_all<S: Source>(
    alloc: Global,
    source: &mut S,
    most: usize,
) -> Result<Vec<u8>, ReadAllFault>
    ensures all { IfOk result (λ bytes. IfSome (S.remaining source.old) (λ left. bytes.items ≡ left)) }
    ensures end { OnOk result (S.remaining source.new ≡ ended (S.remaining source.old)) }
    ensures at_most { IfOk result (λ bytes. length bytes.items ≤ most) }
    ensures part { OnErr result (GavePart (S.remaining source.old) (S.remaining source.new)) }

    ensures too_long { IsErrOf result ReadAllFault.TooLong → IfSome (S.remaining source.old) (λ left. most < length left) }
    ensures read_rose { IsErrOf result ReadAllFault.Read → Rose (S.faults source.old) (S.faults source.new) }
    ensures never_fell { NeverFell (S.faults source.old) (S.faults source.new) }
{
    let mut piece = vec![in alloc; 0u8; PIECE_BYTES]?;
    read_in_pieces(alloc, source, most, &mut piece)
}

/// Does what `read_all` does, by reads into this piece of memory.
fn read_in_pieces<S: Source>(
    alloc: Global,
    source: &mut S,
    most: usize,
    piece: &mut [u8],
) -> Result<Vec<u8>, ReadAllFault>
    requires { 0 < length piece.old }
    ensures all { IfOk result (λ bytes. IfSome (S.remaining source.old) (λ left. bytes.items ≡ left)) }
    ensures end { OnOk result (S.remaining source.new ≡ ended (S.remaining source.old)) }
    ensures at_most { IfOk result (λ bytes. length bytes.items ≤ most) }
    ensures part { OnErr result (GavePart (S.remaining source.old) (S.remaining source.new)) }

    ensures too_long { IsErrOf result ReadAllFault.TooLong → IfSome (S.remaining source.old) (λ left. most < length left) }
    ensures read_rose { IsErrOf result ReadAllFault.Read → Rose (S.faults source.old) (S.faults source.new) }
    ensures never_fell { NeverFell (S.faults source.old) (S.faults source.new) }
{
    let mut bytes = Vec::new(alloc);
    loop {
        match source.read(piece) {
            Ok(0) => return Ok(bytes),
            Ok(count) => append(&mut bytes, &piece[..count], most)?,
            Err(ReadFault) => return Err(ReadAllFault::Read),
        }
    }
}

/// Appends the piece, unless the bytes are then more than `most`.
fn append(bytes: &mut Vec<u8>, piece: &[u8], most: usize) -> Result<(), ReadAllFault>
    requires { length bytes.old.items ≤ most }
    ensures appended { OnOk result (bytes.new.items ≡ bytes.old.items ++ piece.now) }
    ensures at_most { OnOk result (length bytes.new.items ≤ most) }
    ensures too_long { IsErrOf result ReadAllFault.TooLong → most < length bytes.old.items + length piece.now }
    ensures no_read { IsErrOf result ReadAllFault.Read → ⊥ }
{
    if piece.len() > most - bytes.len() {
        return Err(ReadAllFault::TooLong);
    }
    bytes.extend_from_slice(piece)?;
    Ok(())
}

/// Writes all of the bytes. After a fault a front of them was taken, and not all.
pub fn write_all<K: Sink>(sink: &mut K, bytes: &[u8]) -> Result<(), WriteFault>
    ensures all { OnOk result (K.contents sink.new ≡ append_known (K.contents sink.old) bytes.now) }
    ensures part { OnErr result (TookPart (K.contents sink.old) (K.contents sink.new) bytes.now) }
    ensures fault_rose { OnErr result (Rose (K.faults sink.old) (K.faults sink.new)) }
    ensures never_fell { NeverFell (K.faults sink.old) (K.faults sink.new) }
{
    let mut rest = bytes;
    while !rest.is_empty() {
        let count = sink.write(rest)?;
        rest = &rest[count..];
    }
    Ok(())
}
