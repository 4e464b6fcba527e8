//! What a run writes, once all is decided.

ghost use Rattle.std.specs.Prelude.{◌≡◌, ◌≤◌, IsOk, OnOk, OnErr, is_ok, length};
ghost use Rattle.std.specs.Io.KnownBytes.{Appends};
ghost use Rattle.mx_io.specs.Causes.{Rose};
ghost use Rattle.command.specs.Written.{AppendsPart, AreHanded, IsHanded, Written};

use crate::status::Status;
use mx_io::{Sink, SinkFailed};

/// Writes a text whole. Each call is handed all that is not taken yet.
fn write_whole<S: Sink>(text: &[u8], sink: &mut S) -> Result<(), SinkFailed>
    ensures later { S.faults sink.old ≤ S.faults sink.new }
    ensures ok { OnOk result (Appends (S.received sink.old) (S.received sink.new) text.now) }
    ensures part { OnErr result (AppendsPart (S.received sink.old) (S.received sink.new) text.now) }
    ensures rose { OnErr result (Rose (S.faults sink.old) (S.faults sink.new)) }
    ensures still { OnOk result (S.faults sink.new ≡ S.faults sink.old) }
    ensures fitting { length text.now ≤ S.sure sink.old → IsOk result }
    ensures handed { IsHanded S.write_gives sink.old text.now (is_ok result) sink.new }
{
    let mut at = 0;
    while at < text.len() {
        at += sink.write(&text[at..])?;
    }
    Ok(())
}

/// Writes a text to `out`, and then a line to `errs`. It takes no memory.
pub fn carry_out<O: Sink, E: Sink>(
    status: Status,
    text: &[u8],
    line: &[u8],
    out: &mut O,
    errs: &mut E,
) -> Status
    ensures written { Written status text.now line.now result
        (record { before = O.received out.old; after = O.received out.new; faults_before = O.faults out.old; faults_after = O.faults out.new; sure = O.sure out.old })
        (record { before = E.received errs.old; after = E.received errs.new; faults_before = E.faults errs.old; faults_after = E.faults errs.new; sure = E.sure errs.old }) }
    ensures fitting { (length text.now ≤ O.sure out.old) × (length line.now ≤ E.sure errs.old) → result ≡ status }
    ensures handed { AreHanded O.write_gives E.write_gives out.old out.new errs.old errs.new text.now line.now }
{
    if write_whole(text, out).is_err() {
        return Status::WriteFault;
    }
    if write_whole(line, errs).is_err() {
        return Status::WriteFault;
    }
    status
}
