//! The program over its words and its standard streams.
ghost use Rattle.std.specs.Prelude.{◌≡◌, ◌⊎◌, ◌≤◌, ◌∷◌, [], Ok, OnOk, OnErr, IfOk, IfSome, IfNone};
ghost use Rattle.disk.specs.Crash.{history_of};
ghost use Rattle.disk.specs.Device.{IsSync, IsAtMostOneStep};
ghost use Rattle.milestone.specs.declared.format.Format.TheVariants.{Two};
ghost use Rattle.migration.specs.Brought.{IsBrought, IsCopiedFrom};
ghost use Rattle.inspection.specs.Matching.{IsSyncedTwice};
ghost use Rattle.sockets.specs.Host.{arrivals_of};
ghost use Rattle.server.specs.Calls as spec;
ghost use Rattle.server.specs.Calls.{Found, Opened, Closed, Asks, Keeps, AreHad, AreFilled, IsKept, IsMissed, IsRead, WasRead, ClosesAs, IsFilled};
ghost use Rattle.server.specs.Calls.{IsFilledOrMissed, IsUnwritten, IsListenedFor, IsServedAt, IsServedWell, ServesBy, ServedBy};
ghost use Rattle.server.specs.Devices.{between, AreGiven, IsOpenedAnew, WasDone, WasStreamed, IsPrintedOf, dump_text, Spares, IsEmptied, IsMigratedTo, IsCopiedTo};

use crate::calls::{Calls, HostCalls};
use crate::deltas::print_answer;
use crate::documents::dump_store;
use crate::ended::{LISTENING, ProgramEnd, as_ended, brought, tell};
use crate::events::{OpenedStore, milliseconds};
use crate::files::{disk_for, file_there, make_file, make_for, open_file, open_store, without};
use crate::inspected::{check_file, tell_of_store};
use crate::patient::EndingInput;
use crate::standard::NULL_DEVICE;
use crate::watching::{Alone, OperatorWatch};
use clap::error::ErrorKind;
use disk::{Disk, FileDisk, Tried};
use migration::{CopyOutcome, Numbered, Old, has_room_for, shape_of};
use recovery::{Pick, Shape, Store};
use refusal::Refusal;
use server_threads::{Connected, Streamed, serve_on, serve_streams};
use serving::{InputStream, ServingError};
use session::Stream;
use sockets::{Addresses, HostListener};
use std::alloc::Global;
use std::convert::AsStr;
use std::env::Env;
use std::fs::File;
use std::io::{Read, Write};
use std::rt::Files;
use std::sync::Wait;
use std::thread::Threads;
use std::time::Clock;
use words::{DeltaCommand, Invocation, Lines, Listening, Making, ShapeOptions, given};

/// Runs the program, and answers its status: 0 for success, 1 for a refusal or a standard stream that failed, 2 for
/// words that it can't use. The first word is the program's path.
///
/// A refusal is printed on `errors` as `error 7 Exists`, and after `error 34 Fault` on a line of its own what was tried and the system's
/// reason; a usage fault there in a text of its own; help that is asked for goes to `output`. Faults are found in the order words,
/// standard streams, file, store, address.
pub fn run<
    R: Files<File = File> + AllocGlobal + Addresses + Threads + Wait + Clock + Sync,
    S: AsStr,
    I: Read + EndingInput + Send,
    O: Write + Send,
    E: Write + Send,
>(rt: &R, words: &[S], input: &mut I, output: &mut O, errors: &mut E) -> u8
    ensures { result ≤ 2 }
{
    let parsed = Invocation::parse(rt.alloc(), words);
    let mut calls = HostCalls::new(rt);
    let (_, status) = run_on(rt, &mut calls, parsed, Streams { input, output }, errors);
    status
}

/// Runs the program over the words that the system gives it, as `run` does. Words that aren't UTF-8 can't be used.
pub fn run_with_args<
    R: Files<File = File> + AllocGlobal + Env + Addresses + Threads + Wait + Clock + Sync,
    I: Read + EndingInput + Send,
    O: Write + Send,
    E: Write + Send,
>(rt: &R, input: &mut I, output: &mut O, errors: &mut E) -> u8
    ensures { result ≤ 2 }
{
    match given(rt) {
        Ok(words) => run(rt, words.as_slice(), input, output, errors),
        Err(fault) => show_usage(&fault, output, errors),
    }
}

// What a command reads and prints. No clause follows a borrow into a value that a generic call gives back, so they go by value, and come back.
#[derive(Drop)]
struct Streams<I, O> {
    input: I,
    output: O,
}

// Runs the program over what its words ask for. It asks the system for what that command does, or for nothing, and for nothing where the words
// can't be used. The status is 0 only where the command could be done.
fn run_on<
    'a,
    R: AllocGlobal + Threads + Wait + Clock + Sync,
    C: Calls,
    I: Read + EndingInput + Send + Drop,
    O: Write + Send + Drop,
    E: Write + Send,
>(
    rt: &R,
    calls: &mut C,
    parsed: Result<Invocation<'a>, clap::Error>,
    streams: Streams<I, O>,
    errors: &mut E,
) -> (Streams<I, O>, u8)
    ensures status { result.1 ≤ 2 }
    ensures asks { IfOk parsed.entry (λ invocation. (C.made calls.new ≡ C.made calls.old)
        ⊎ Asks ⟦<FileDisk as Disk>⟧ invocation (between (I.remaining streams.input)
        (I.remaining result.0.input) (O.contents streams.output) (O.contents result.0.output)) (C.made calls.old) (C.made calls.new)) }
    ensures keeps { IfOk parsed.entry (λ invocation. result.1 ≡ 0 → Keeps ⟦<FileDisk as Disk>⟧ invocation
        (between (I.remaining streams.input) (I.remaining result.0.input) (O.contents streams.output) (O.contents result.0.output))
        (C.made calls.old) (C.made calls.new)) }
    ensures unusable { OnErr parsed.entry (C.made calls.new ≡ C.made calls.old) }
{
    let invocation = match parsed {
        Ok(invocation) => invocation,
        Err(fault) => {
            let mut streams = streams;
            let status = show_usage(&fault, &mut streams.output, errors);
            return (streams, status);
        }
    };
    let standard = match calls.complete() {
        Ok(standard) => standard,
        Err(reason) => {
            let ended = without(Tried::Opening, NULL_DEVICE, reason);
            return (streams, tell_end(ended, errors));
        }
    };
    let (streams, done) = invoke(rt, calls, invocation, streams, errors);
    let status = match done {
        Ok(()) => 0,
        Err(ended) => tell_end(ended, errors),
    };
    drop(standard);
    (streams, status)
}

// Does what the words ask for. It asks the system for those files and that address alone which they name, in this order.
fn invoke<
    'a,
    R: AllocGlobal + Threads + Wait + Clock + Sync,
    C: Calls,
    I: Read + EndingInput + Send + Drop,
    O: Write + Send + Drop,
    E: Write + Send,
>(
    rt: &R,
    calls: &mut C,
    invocation: Invocation<'a>,
    streams: Streams<I, O>,
    errors: &mut E,
) -> (Streams<I, O>, Result<(), ProgramEnd<'a>>)
    ensures asks { Asks ⟦<FileDisk as Disk>⟧ invocation.entry (between (I.remaining streams.input)
        (I.remaining result.0.input) (O.contents streams.output) (O.contents result.0.output)) (C.made calls.old) (C.made calls.new) }
    ensures keeps { OnOk result.1 (Keeps ⟦<FileDisk as Disk>⟧ invocation.entry (between (I.remaining streams.input)
        (I.remaining result.0.input) (O.contents streams.output) (O.contents result.0.output))
        (C.made calls.old) (C.made calls.new)) }
{
    let alloc = rt.alloc();
    match invocation {
        Invocation::Format {
            path,
            shape,
            reserve,
        } => {
            let done = format_file(alloc, calls, path, shape, reserve);
            (streams, done)
        }
        Invocation::Serve {
            path,
            listening,
            every,
            older,
        } => {
            let pick = pick_of(older);
            serve(rt, calls, path, listening, every, pick, streams, errors)
        }
        Invocation::Dump { path, older } => {
            let Streams { input, output } = streams;
            let (output, done) = dump_file(alloc, calls, path, pick_of(older), output);
            (Streams { input, output }, done)
        }
        Invocation::Info { path, documents } => {
            let Streams { input, output } = streams;
            let (output, done) = tell_of_store(alloc, calls, path, documents, output);
            (Streams { input, output }, done)
        }
        Invocation::Check { path } => {
            let Streams { input, output } = streams;
            let (output, done) = check_file(alloc, calls, path, output);
            (Streams { input, output }, done)
        }
        Invocation::Migrate { old, new } => {
            let done = migrate(alloc, calls, old, new);
            (streams, done)
        }
        Invocation::Copy { old, new, shape } => {
            let done = copy(alloc, calls, old, new, shape);
            (streams, done)
        }
        Invocation::Delta(command) => {
            let mut streams = streams;
            let done = make_by(alloc, command, &mut streams.input, &mut streams.output);
            (streams, done)
        }
    }
}

// Prints what comes of two deltas, which are words of the command or lines of the input.
fn make_by<'a, I: Read, O: Write>(
    alloc: Global,
    command: DeltaCommand<'a>,
    input: &mut I,
    output: &mut O,
) -> Result<(), ProgramEnd<'a>> {
    let DeltaCommand { making, deltas } = command;
    match deltas {
        Some((first, second)) => make(alloc, making, first, second, output),
        None => make_of_lines(alloc, making, input, output),
    }
}

// Prints what comes of the two deltas on the lines of the input.
fn make_of_lines<'a, I: Read, O: Write>(
    alloc: Global,
    making: Making,
    input: &mut I,
    output: &mut O,
) -> Result<(), ProgramEnd<'a>> {
    let lines = Lines::read(alloc, input)?;
    let (first, second) = lines.both();
    make(alloc, making, first, second, output)
}

// Prints what comes of two deltas.
fn make<'a, O: Write>(
    alloc: Global,
    making: Making,
    first: &str,
    second: &str,
    output: &mut O,
) -> Result<(), ProgramEnd<'a>> {
    let mut stream = Stream::new(output);
    Ok(print_answer(alloc, making.task(first, second), &mut stream)?)
}

// Prints the documents of the store in a file. The output comes back.
fn dump_file<'a, C: Calls, O: Write + Drop>(
    alloc: Global,
    calls: &mut C,
    path: &'a str,
    pick: Pick,
    output: O,
) -> (O, Result<(), ProgramEnd<'a>>)
    ensures read { IsRead IsUnwritten path.now (C.made calls.old) (C.made calls.new) }
    ensures kept { OnOk result.1 (WasRead (WasDone ⟦<FileDisk as Disk>⟧ (IsPrintedOf ⟦<FileDisk as Disk>⟧ pick
        (dump_text ⟦<FileDisk as Disk>⟧) (O.contents output) (O.contents result.0))) path.now (C.made calls.old) (C.made calls.new)) }
{
    let disk = match open_file(calls, path) {
        Ok(disk) => disk,
        Err(ended) => return (output, Err(ended)),
    };
    let mut stream = Stream::new(output);
    let printed = dump_store(alloc, disk, pick, &mut stream);
    let done = printed.ended(calls, path);
    (stream.into_writer(), done)
}

// Makes a store in a file, with the numbers that the words give. Where the file is made and room is to be reserved, it is written whole before.
fn format_file<'a, C: Calls>(
    alloc: Global,
    calls: &mut C,
    path: &'a str,
    given: ShapeOptions,
    reserve: bool,
) -> Result<(), ProgramEnd<'a>>
    ensures had { IsFilledOrMissed ⟦<FileDisk as Disk>⟧ (Spares ⟦<FileDisk as Disk>⟧) path.now (C.made calls.old) (C.made calls.new) }
    ensures kept { OnOk result (IsFilled ⟦<FileDisk as Disk>⟧ (IsEmptied ⟦<FileDisk as Disk>⟧ given)
        path.now (C.made calls.old) (C.made calls.new)) }
{
    let shape = with_numbers(given, Shape::DEFAULT);
    let mut disk = disk_for(calls, path, shape, reserve)?;
    match recovery::format_device(alloc, &mut disk, shape) {
        Ok(()) => {
            calls.close(path, disk);
            Ok(())
        }
        Err(refusal) => {
            let ended = ProgramEnd::over(path, &disk, refusal);
            calls.close(path, disk);
            Err(ended)
        }
    }
}

// Brings a store over. The new file is made where it is missing, once the old store is read.
fn migrate<'a, C: Calls>(
    alloc: Global,
    calls: &mut C,
    old: &'a str,
    new: &'a str,
) -> Result<(), ProgramEnd<'a>>
    ensures had { AreHad ⟦<FileDisk as Disk>⟧ old.now new.now (C.made calls.old) (C.made calls.new) }
    ensures kept { OnOk result (AreFilled ⟦<FileDisk as Disk>⟧ (IsMigratedTo ⟦<FileDisk as Disk>⟧)
        old.now new.now (C.made calls.old) (C.made calls.new)) }
{
    let mut from = open_file(calls, old)?;
    let migrated = migrate_from(alloc, calls, &mut from, old, new);
    calls.close(old, from);
    migrated
}

// Brings the store on a device over.
fn migrate_from<'a, C: Calls>(
    alloc: Global,
    calls: &mut C,
    from: &mut FileDisk,
    old: &'a str,
    new: &'a str,
) -> Result<(), ProgramEnd<'a>>
    ensures had { IsFilledOrMissed ⟦<FileDisk as Disk>⟧ (Spares ⟦<FileDisk as Disk>⟧) new.now (C.made calls.old) (C.made calls.new) }
    ensures kept { OnOk result (IsFilled ⟦<FileDisk as Disk>⟧ (IsMigratedTo ⟦<FileDisk as Disk>⟧ from.old from.new)
        new.now (C.made calls.old) (C.made calls.new)) }
    ensures unwritten { IsSyncedTwice (history_of ⟦<FileDisk as Disk>⟧ from.old) (history_of ⟦<FileDisk as Disk>⟧ from.new) }
{
    let mut to = new_for(alloc, calls, from, old, new)?;
    match migration::migrate(alloc, from, &mut to) {
        Ok(()) => {
            calls.close(new, to);
            Ok(())
        }
        Err(refusal) => {
            let ended = ProgramEnd::over_two((old, from), (new, &to), refusal);
            calls.close(new, to);
            Err(ended)
        }
    }
}

// A device for a store that is brought over. The file is made where it is missing, once the old store is read.
fn new_for<'a, C: Calls>(
    alloc: Global,
    calls: &mut C,
    from: &mut FileDisk,
    old: &'a str,
    new: &'a str,
) -> Result<FileDisk, ProgramEnd<'a>>
    ensures kept { OnOk result (IsKept new.now (C.made calls.old) (C.made calls.new)) }
    ensures missed { OnErr result (IsMissed new.now (C.made calls.old) (C.made calls.new)) }
    ensures untouched { IfOk result (λ disk. C.made calls.new ≡ Opened new.now ∷ Found new.now ∷ C.made calls.old
        → ⟦<FileDisk as Disk>⟧.past disk ≡ []) }
    ensures unwritten { IsAtMostOneStep IsSync (history_of ⟦<FileDisk as Disk>⟧ from.old)
        (history_of ⟦<FileDisk as Disk>⟧ from.new) }
    ensures seen { ⟦<FileDisk as Disk>⟧.seen from.new ≡ ⟦<FileDisk as Disk>⟧.seen from.old }
{
    match file_there(calls, new)? {
        Some(disk) => Ok(disk),
        None => match Old::read(alloc, from) {
            Ok(read) => make_file(calls, new, read.device_len()),
            Err(refusal) => Err(ProgramEnd::over(old, from, refusal)),
        },
    }
}

// Copies a store. The new file is made where it is missing, once the old store is read.
fn copy<'a, C: Calls>(
    alloc: Global,
    calls: &mut C,
    old: &'a str,
    new: &'a str,
    given: ShapeOptions,
) -> Result<(), ProgramEnd<'a>>
    ensures had { AreHad ⟦<FileDisk as Disk>⟧ old.now new.now (C.made calls.old) (C.made calls.new) }
    ensures kept { OnOk result (AreFilled ⟦<FileDisk as Disk>⟧ (IsCopiedTo ⟦<FileDisk as Disk>⟧ given)
        old.now new.now (C.made calls.old) (C.made calls.new)) }
{
    let from = open_file(calls, old)?;
    let Brought { from, done } = copy_from(alloc, calls, from, old, new, given);
    calls.close(old, from);
    done
}

// What came of a copy. The device of the old store comes back.
#[derive(Drop)]
struct Brought<'a> {
    from: FileDisk,
    done: Result<(), ProgramEnd<'a>>,
}

// Copies the store on a device.
fn copy_from<'a, C: Calls>(
    alloc: Global,
    calls: &mut C,
    from: FileDisk,
    old: &'a str,
    new: &'a str,
    given: ShapeOptions,
) -> Brought<'a>
    ensures had { IsFilledOrMissed ⟦<FileDisk as Disk>⟧ (Spares ⟦<FileDisk as Disk>⟧) new.now (C.made calls.old) (C.made calls.new) }
    ensures kept { OnOk result.done (IsFilled ⟦<FileDisk as Disk>⟧ (IsCopiedTo ⟦<FileDisk as Disk>⟧ given from result.from)
        new.now (C.made calls.old) (C.made calls.new)) }
    ensures unwritten { IsSyncedTwice (history_of ⟦<FileDisk as Disk>⟧ from) (history_of ⟦<FileDisk as Disk>⟧ result.from) }
{
    let there = match file_there(calls, new) {
        Ok(there) => there,
        Err(ended) => {
            let done = Err(ended);
            return Brought { from, done };
        }
    };
    let Numbered {
        device: from,
        shape,
    } = shape_of(alloc, from);
    let numbers = match shape {
        Ok(numbers) => numbers,
        Err(refusal) => {
            let done = Err(ProgramEnd::over(old, &from, refusal));
            close_there(calls, new, there);
            return Brought { from, done };
        }
    };
    let shape = with_numbers(given, numbers);
    match there {
        Some(to) => copy_to(alloc, calls, (old, from), (new, to), shape),
        None if has_room_for(&numbers, &shape) => match make_for(calls, new, shape, false) {
            Ok(to) => copy_to(alloc, calls, (old, from), (new, to), shape),
            Err(ended) => {
                let done = Err(ended);
                Brought { from, done }
            }
        },
        None => {
            let done = Err(ProgramEnd::Refused(Refusal::BadShape, None));
            Brought { from, done }
        }
    }
}

// Closes a file, where it was opened.
fn close_there<C: Calls>(calls: &mut C, path: &str, there: Option<FileDisk>)
    ensures closed { IfSome there (λ disk. C.made calls.new ≡ Closed path.now (history_of ⟦<FileDisk as Disk>⟧ disk) ∷ C.made calls.old) }
    ensures none { IfNone there (C.made calls.new ≡ C.made calls.old) }
{
    if let Some(disk) = there {
        calls.close(path, disk);
    }
}

// Copies the store on a device to a device for one of this shape, and closes that.
fn copy_to<'a, C: Calls>(
    alloc: Global,
    calls: &mut C,
    old: (&'a str, FileDisk),
    new: (&'a str, FileDisk),
    shape: Shape,
) -> Brought<'a>
    ensures spared { ClosesAs ⟦<FileDisk as Disk>⟧ (Spares ⟦<FileDisk as Disk>⟧ new.entry.1) new.entry.0.now
        (C.made calls.old) (C.made calls.new) }
    ensures brought { OnOk result.done (ClosesAs ⟦<FileDisk as Disk>⟧ (IsBrought ⟦<FileDisk as Disk>⟧ ⟦<FileDisk as Disk>⟧ Two
        (IsCopiedFrom ⟦<FileDisk as Disk>⟧ shape old.entry.1 result.from) old.entry.1 result.from new.entry.1)
        new.entry.0.now (C.made calls.old) (C.made calls.new)) }
    ensures unwritten { IsAtMostOneStep IsSync (history_of ⟦<FileDisk as Disk>⟧ old.entry.1) (history_of ⟦<FileDisk as Disk>⟧ result.from) }
{
    let (from_path, from) = old;
    let (to_path, mut to) = new;
    let CopyOutcome { old: from, made } = migration::copy(alloc, from, &mut to, shape);
    let done = brought((from_path, &from), (to_path, &to), made);
    calls.close(to_path, to);
    Brought { from, done }
}

// The numbers that the words leave out are the other ones.
fn with_numbers(given: ShapeOptions, others: Shape) -> Shape
    ensures { AreGiven given result }
{
    Shape {
        slots: given.slots.unwrap_or(others.slots),
        slot: given.slot.unwrap_or(others.slot),
        docs: given.docs.unwrap_or(others.docs),
        cell: given.cell.unwrap_or(others.cell),
        sources: given.sources.unwrap_or(others.sources),
        keep: given.keep.unwrap_or(others.keep),
    }
}

// Which milestone of a document its reading begins with.
fn pick_of(older: bool) -> Pick
    ensures { result ≡ spec.pick_of older }
{
    if older { Pick::Older } else { Pick::Newer }
}

// Serves a store: to those who connect to an address where one is given, else to one session over the streams.
fn serve<
    'a,
    R: AllocGlobal + Threads + Wait + Clock + Sync,
    C: Calls,
    I: Read + EndingInput + Send + Drop,
    O: Write + Send + Drop,
    E: Write + Send,
>(
    rt: &R,
    calls: &mut C,
    path: &'a str,
    listening: Option<Listening<'a>>,
    every: u32,
    pick: Pick,
    streams: Streams<I, O>,
    errors: &mut E,
) -> (Streams<I, O>, Result<(), ProgramEnd<'a>>)
    ensures serves { ServesBy ⟦<FileDisk as Disk>⟧ pick (between (I.remaining streams.input) (I.remaining result.0.input)
        (O.contents streams.output) (O.contents result.0.output)) path.now listening.entry (C.made calls.old) (C.made calls.new) }
    ensures served { OnOk result.1 (ServedBy ⟦<FileDisk as Disk>⟧ pick (between (I.remaining streams.input) (I.remaining result.0.input)
        (O.contents streams.output) (O.contents result.0.output))
        path.now listening.entry (C.made calls.old) (C.made calls.new)) }
{
    match listening {
        Some(how) => {
            let mut streams = streams;
            let ended = listen(rt, calls, path, how, every, pick, &mut streams, errors);
            (streams, ended)
        }
        None => {
            let store = match open_store(rt.alloc(), calls, path, pick) {
                Ok(store) => store,
                Err(ended) => return (streams, Err(ended)),
            };
            let (store, (streams, answer)) = serve_alone(rt, store, path, every, streams, errors);
            calls.close(path, store.close());
            (streams, as_ended(answer))
        }
    }
}

// Serves one session over the streams, beside a thread that writes.
fn serve_alone<
    R: AllocGlobal + Threads + Wait + Sync,
    I: Read + Drop,
    O: Write + Drop,
    E: Write + Send,
>(
    rt: &R,
    store: Store<FileDisk>,
    path: &str,
    every: u32,
    streams: Streams<I, O>,
    errors: &mut E,
) -> (Store<FileDisk>, (Streams<I, O>, Result<(), ServingError>))
    ensures { WasStreamed ⟦<FileDisk as Disk>⟧ (between (I.remaining streams.input) (I.remaining result.1.0.input)
        (O.contents streams.output) (O.contents result.1.0.output)) result.1.1 store result.0 }
{
    let watch = Alone::new(rt, path, errors);
    let Streams { input, output } = streams;
    let input = InputStream::new(input);
    let output = Stream::new(output);
    let streamed = serve_streams(rt, rt.alloc(), store, input, output, every, &watch);
    let Streamed {
        store,
        input,
        output,
        served,
    } = streamed;
    let streams = Streams {
        input: input.into_reader(),
        output: output.into_writer(),
    };
    (store, (streams, served))
}

// Serves a store to those who connect to an address, and tells where it listens once somebody can be served. It ends where the listener
// can't work any more, where that is asked for once the store has failed, and, where that is asked for, at the end of the input: well, if all
// was served well. An address that can't be had is a fault.
fn listen<
    'a,
    R: AllocGlobal + Threads + Wait + Clock + Sync,
    C: Calls,
    I: EndingInput + Send,
    O: Write + Send,
    E: Write + Send,
>(
    rt: &R,
    calls: &mut C,
    path: &'a str,
    how: Listening<'a>,
    every: u32,
    pick: Pick,
    streams: &mut Streams<I, O>,
    errors: &mut E,
) -> Result<(), ProgramEnd<'a>>
    ensures serves { IsListenedFor ⟦<FileDisk as Disk>⟧ pick path.now how.entry.address.now (C.made calls.old) (C.made calls.new) }
    ensures served { OnOk result (IsServedWell ⟦<FileDisk as Disk>⟧ pick path.now how.entry.address.now (C.made calls.old) (C.made calls.new)) }
{
    let before = milliseconds(rt.monotonic());
    let store = open_store(rt.alloc(), calls, path, pick)?;
    let took = milliseconds(rt.monotonic()).saturating_sub(before);
    let (listener, bound) = match calls.listen(how.address) {
        Ok(found) => found,
        Err(reason) => {
            calls.close(path, store.close());
            return Err(ProgramEnd::fault(LISTENING, how.address, reason));
        }
    };
    let opened = OpenedStore::of(&store, took);
    let Streams { input, output } = streams;
    let watch = OperatorWatch::new(rt, path, bound, how, opened, input, output, errors);
    let served = serve_at(rt, calls, path, how, every, pick, store, listener, &watch);
    watch.ended(how, served)
}

// Serves a store that was opened to those who come by a listener, and closes the listener and the file then.
fn serve_at<
    'a,
    R: AllocGlobal + Threads + Wait + Clock + Sync,
    C: Calls,
    I: EndingInput + Send,
    O: Write + Send,
    E: Write + Send,
>(
    rt: &R,
    calls: &mut C,
    path: &'a str,
    how: Listening<'a>,
    every: u32,
    pick: Pick,
    store: Store<FileDisk>,
    listener: HostListener,
    watch: &OperatorWatch<'a, R, I, O, E>,
) -> Result<(), Refusal>
    requires from { IsOpenedAnew ⟦<FileDisk as Disk>⟧ pick store }
    requires nobody { arrivals_of listener ≡ [] }
    ensures { IsServedAt ⟦<FileDisk as Disk>⟧ pick path.now how.entry.address.now result (C.made calls.old) (C.made calls.new) }
{
    let connected = serve_on(rt, rt.alloc(), store, listener, every, how.idle, watch);
    let Connected {
        store,
        listener,
        attendance: _attendance,
        served,
    } = connected;
    calls.leave(how.address, listener);
    let device = store.close();
    calls.close(path, device);
    served
}

fn tell_end<E: Write>(ended: ProgramEnd<'_>, errors: &mut E) -> u8
    ensures bad { 1 ≤ result }
    ensures status { result ≤ 2 }
{
    match ended {
        ProgramEnd::Refused(refusal, cause) => {
            tell(refusal, cause, errors);
            1
        }
        ProgramEnd::Stream => 1,
        ProgramEnd::Usage(fault) => show_fault(&fault, errors),
    }
}

fn show_usage<O: Write, E: Write>(fault: &clap::Error, output: &mut O, errors: &mut E) -> u8
    ensures { result ≤ 2 }
{
    if fault.use_stderr() {
        show_fault(fault, errors)
    } else if write_out(fault, output) {
        0
    } else {
        1
    }
}

// Words that can't be used.
fn show_fault<E: Write>(fault: &clap::Error, errors: &mut E) -> u8
    ensures bad { 1 ≤ result }
    ensures status { result ≤ 2 }
{
    if fault.kind() == ErrorKind::OutOfMemory {
        tell(Refusal::NoMemory, None, errors);
        return 1;
    }
    if write_out(fault, errors) { 2 } else { 1 }
}

fn write_out<W: Write>(fault: &clap::Error, stream: &mut W) -> bool {
    write!(stream, "{fault}").is_ok() && stream.flush().is_ok()
}
