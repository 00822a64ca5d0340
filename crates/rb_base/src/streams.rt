//! A source over a reader and a sink over a writer. What a system gives and takes is known to no clause, so
//! they tell nothing of contents, and count the calls that failed.
ghost use Rattle.std.specs.Prelude.{◌≡◌, ℕ, ◌<◌, ◌≤◌, None, true, false, length, take, IfOk, OnOk, OnErr, IfSome, IsTrue};
ghost use Rattle.std.specs.Io.KnownBytes.{Appends, Consumes, IsAtEnd};
ghost use Rattle.rb_base.specs.Outside.{Rose, Reads, with_more};
ghost use Rattle.rb_base.specs.Steps.{one_more};

use crate::outside::{Failed, Sink, Source};
use std::io::{ErrorKind, Read, Write};
use std::marker::Model;

/// A source over a reader.
#[derive(Drop)]
pub struct StdSource<R> {
    reader: R,
    faults: u64,
    ended: bool,
}

impl<R> Model for StdSource<R> {
    ghost use Rattle.rb_base.specs.Streams.{ReaderState};

    ghost Value = { ReaderState R };

    ghost view = { λ s. record { reader = s.reader; faults = s.faults; ended = s.ended } };
}

impl<R: Read + Drop> StdSource<R> {
    /// The source of what the reader gives.
    pub fn new(reader: R) -> StdSource<R>
        ensures reader { result.reader ≡ reader }
        ensures faults { result.faults ≡ 0 }
        ensures ended { result.ended ≡ false }
    {
        StdSource {
            reader,
            faults: 0,
            ended: false,
        }
    }
}

impl<R: Read + Drop> Source for StdSource<R> {
    ghost faults = { λ s. s.faults };

    ghost left = { λ _. None };

    fn read(&mut self, buf: &mut [u8]) -> Result<usize, Failed>
        requires { 0 < length buf.old }
        ensures placed { IfOk result (λ n. Reads n buf.old buf.new None None) }
        ensures counted { OnOk result (self.new.faults ≡ self.old.faults) }
        ensures failed { OnErr result (Rose self.old.faults self.new.faults) }

        // The bytes come from the reader. Once the input has ended no call gives a byte.
        ensures bytes { IfOk result (λ n. Consumes (R.remaining self.old.reader) (R.remaining self.new.reader)
            (take n buf.new)) }
        ensures ends { result ≡ Ok 0 → IsTrue self.new.ended }
        ensures ended { IsTrue self.old.ended → (result ≡ Ok 0) × (self.new ≡ self.old) }
        ensures fault { OnErr result (self.new.faults ≡ one_more self.old.faults) }
    {
        if self.ended {
            return Ok(0);
        }
        match read_once(&mut self.reader, buf) {
            Some(count) => {
                self.ended = count == 0;
                Ok(count)
            }
            None => {
                self.faults = self.faults.saturating_add(1);
                Err(Failed)
            }
        }
    }
}

/// One read, tried again where a signal interrupts it. `None` where it failed.
pub(crate) fn read_once<R: Read>(reader: &mut R, buf: &mut [u8]) -> Option<usize>
    ensures bound { IfSome result (λ count. count ≤ length buf.new) }
    ensures bytes { IfSome result (λ count. Consumes (R.remaining reader.old) (R.remaining reader.new)
        (take count buf.new)) }
    ensures end { IfSome result (λ count. count ≡ 0 → 0 < length buf.old → IsAtEnd (R.remaining reader.new)) }
{
    'tries: for _ in 0..u64::MAX {
        match reader.read(buf) {
            Ok(count) => return Some(count),
            Err(error) if error.kind() == ErrorKind::Interrupted => {}
            Err(_) => return None,
        }
    }
    None
}

/// A sink over a writer.
#[derive(Drop)]
pub struct StdSink<W> {
    writer: W,
    faults: u64,
}

impl<W> Model for StdSink<W> {
    ghost use Rattle.rb_base.specs.Streams.{WriterState};

    ghost Value = { WriterState W };

    ghost view = { λ s. record { writer = s.writer; faults = s.faults } };
}

impl<W: Write + Drop> StdSink<W> {
    /// The sink into the writer.
    pub fn new(writer: W) -> StdSink<W>
        ensures writer { result.writer ≡ writer }
        ensures faults { result.faults ≡ 0 }
    {
        StdSink { writer, faults: 0 }
    }
}

impl<W: Write + Drop> Sink for StdSink<W> {
    ghost faults = { λ s. s.faults };

    ghost taken = { λ _. None };

    fn write(&mut self, piece: &[u8]) -> Result<usize, Failed>
        requires { 0 < length piece.now }
        ensures some { IfOk result (λ n. (0 < n) × (n ≤ length piece.now)) }
        ensures counted { OnOk result (self.new.faults ≡ self.old.faults) }
        ensures failed { OnErr result (Rose self.old.faults self.new.faults) }

        // The bytes go to the writer.
        ensures bytes { IfOk result (λ n. Appends (W.contents self.old.writer) (W.contents self.new.writer)
            (take n piece.now)) }
        ensures fault { OnErr result (self.new.faults ≡ one_more self.old.faults) }
    {
        match write_once(&mut self.writer, piece) {
            Some(count) => Ok(count),
            None => {
                self.faults = self.faults.saturating_add(1);
                Err(Failed)
            }
        }
    }
}

/// One write that is really out, tried again where a signal interrupts it. `None` where it failed or took
/// nothing.
pub(crate) fn write_once<W: Write>(writer: &mut W, piece: &[u8]) -> Option<usize>
    ensures some { IfSome result (λ count. (0 < count) × (count ≤ length piece.now)) }
    ensures bytes { IfSome result (λ count. Appends (W.contents writer.old) (W.contents writer.new)
        (take count piece.now)) }
{
    'tries: for _ in 0..u64::MAX {
        match writer.write(piece) {
            Ok(0) => return None,
            Ok(count) => return writer.flush().ok().map(|_| count),
            Err(error) if error.kind() == ErrorKind::Interrupted => {}
            Err(_) => return None,
        }
    }
    None
}
