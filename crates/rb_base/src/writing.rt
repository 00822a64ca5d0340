//! Writing a piece to a sink by as many calls as it needs.
ghost use Rattle.std.specs.Prelude.{◌≡◌, ◌<◌, ◌≤◌, length, take, OnOk, OnErr, IsOk};
ghost use Rattle.rb_base.specs.Outside.{Rose, TookFront, with_more};

use crate::outside::{Failed, Sink};

/// Writes all of `bytes`, by as many calls as the sink needs, and none where there is no byte.
///
/// `Failed` where a call failed: then a prefix of the bytes went out.
pub fn write_all<O: Sink>(out: &mut O, bytes: &[u8]) -> Result<(), Failed>
    ensures took { OnOk result (O.taken out.new ≡ with_more (O.taken out.old) bytes.now) }
    ensures counted { OnOk result (O.faults out.new ≡ O.faults out.old) }
    ensures failed { OnErr result (Rose (O.faults out.old) (O.faults out.new)) }
    ensures front { OnErr result (TookFront (O.taken out.old) (O.taken out.new) bytes.now) }
    ensures empty { length bytes.now ≡ 0 → IsOk result × (out.new ≡ out.old) }
{
    if write_front(out, bytes) == bytes.len() {
        Ok(())
    } else {
        Err(Failed)
    }
}

/// Writes bytes from the front, by as many calls as the sink needs, until all are out or a call fails, and answers
/// how many went out. No call is made where there is no byte.
pub(crate) fn write_front<O: Sink>(out: &mut O, bytes: &[u8]) -> usize
    ensures within { result ≤ length bytes.now }
    ensures took { O.taken out.new ≡ with_more (O.taken out.old) (take result bytes.now) }
    ensures whole { result ≡ length bytes.now → O.faults out.new ≡ O.faults out.old }
    ensures short { result < length bytes.now → Rose (O.faults out.old) (O.faults out.new) }
    ensures empty { length bytes.now ≡ 0 → out.new ≡ out.old }
{
    let mut at = 0;
    'pieces: while at < bytes.len() {
        match out.write(&bytes[at..]) {
            Ok(count) => at += count,
            Err(Failed) => return at,
        }
    }
    at
}
