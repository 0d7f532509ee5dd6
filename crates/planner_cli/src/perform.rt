ghost use Rattle.std.specs.Prelude.{◌≡◌, ◌<◌, ◌↔◌, [], true, None, map, IfOk, OnOk, IsErrOf};
ghost use Rattle.std.specs.String.{string_bytes};
ghost use Rattle.command_input.specs.declared.fault.InputFault.{InputFault};
ghost use Rattle.command_input.specs.Words.{command_of};
ghost use Rattle.command_input.specs.Input.{most};
ghost use Rattle.command_input.specs.Loading.{IsSound};
ghost use Rattle.outside_io.specs.Outside.{Appends, AppendsFront, Rose};
ghost use Rattle.planner_cli.specs.Run.{Tells, AppendsEnd, AppendsCut, is_silent};

use crate::ends::end_of;
use crate::status::{Status, status_of};
use command_input::{Task, load, parse};
use outside_io::{Shelf, Sink, SinkNo};
use std::alloc::Global;

// Writes a text as one piece, where there is any of it to write.
fn write_text<K: Sink>(sink: &mut K, text: &[u8]) -> Result<(), SinkNo>
    ensures written { OnOk result (Appends (K.state sink.old).written (K.state sink.new).written text.now) }
    ensures none { text.now ≡ [] → (K.state sink.new).written ≡ (K.state sink.old).written }
    ensures front { IsErrOf result SinkNo.Failed → AppendsFront (K.state sink.old).written (K.state sink.new).written text.now }
    ensures fault { IsErrOf result SinkNo.Failed → Rose (K.state sink.old).faults (K.state sink.new).faults }
    ensures steady { (K.state sink.old).steady ≡ true → IsErrOf result SinkNo.Failed → ⊥ }
    ensures memory { IsErrOf result SinkNo.NoMemory → (K.state sink.new).written ≡ (K.state sink.old).written }
{
    if text.is_empty() {
        return Ok(());
    }
    sink.put(text)
}

// Ends a command: its report, where it has one, is written as one piece.
fn finish<K: Sink>(alloc: Global, task: Task, sink: &mut K) -> Result<Status, SinkNo>
    requires { IsSound task }
    ensures ended { IfOk result (λ status. AppendsEnd task status (K.state sink.old).written (K.state sink.new).written) }
    ensures silent { IfOk result (λ status. is_silent status ≡ true → (K.state sink.new).written ≡ (K.state sink.old).written) }
    ensures cut { IsErrOf result SinkNo.Failed → AppendsCut task (K.state sink.old).written (K.state sink.new).written }
    ensures fault { IsErrOf result SinkNo.Failed → Rose (K.state sink.old).faults (K.state sink.new).faults }
    ensures steady { (K.state sink.old).steady ≡ true → IsErrOf result SinkNo.Failed → ⊥ }
    ensures wanting { IsErrOf result SinkNo.NoMemory → (K.state sink.new).written ≡ (K.state sink.old).written }
{
    let end = end_of(alloc, task)?;
    write_text(sink, end.text.as_slice())?;
    Ok(end.status)
}

/// Runs a command: reads the files that the words name from the shelf, and writes the report to the sink.
/// The words are those of the command line without the program's name.
///
/// A file is read and refused before the next one is read. Nothing is written before all input is read, and for `run`
/// before all steps of the plan are done.
/// docs/FORMATS.md tells the words, the files, the report and the statuses; docs/PROVED.md says which clause
/// carries which promise.
pub fn run<H: Shelf, K: Sink>(
    alloc: Global,
    words: &[String],
    shelf: &mut H,
    sink: &mut K,
) -> Status
    // What the status says of the words, of the input and of what was written.
    ensures words { (result ≡ Status.Words) ↔ (command_of (map string_bytes words.now) ≡ None) }
    ensures told { Tells (map string_bytes words.now) (H.state shelf.old) (H.state shelf.new) (K.state sink.old) (K.state sink.new) result }
    ensures kept { is_silent result ≡ true → (K.state sink.new).written ≡ (K.state sink.old).written }

    // Faults and lengths have their causes, and a steady sink never fails.
    ensures write_fault { result ≡ Status.WriteFault → Rose (K.state sink.old).faults (K.state sink.new).faults }
    ensures too_long { (fault : InputFault) → result ≡ Status.Input fault → fault.code ≡ 0 → most < (H.state shelf.new).taken }
    ensures steady_sink { (K.state sink.old).steady ≡ true → result ≡ Status.WriteFault → ⊥ }
    ensures held_kept { (H.state shelf.new).held ≡ (H.state shelf.old).held }
{
    let Some(command) = parse(words) else {
        return Status::Words;
    };
    match load(alloc, shelf, command) {
        Ok(task) => match finish(alloc, task, sink) {
            Ok(status) => status,
            Err(SinkNo::Failed) => Status::WriteFault,
            Err(SinkNo::NoMemory) => Status::NoMemory,
        },
        Err(error) => status_of(error),
    }
}
