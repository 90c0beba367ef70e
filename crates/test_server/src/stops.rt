//! Sessions over a device that stops.
use crate::edits::{edits, letter};
use crate::unwatched::Nobody;
use disk::{Call, Disk, FaultDisk, FaultPlan, Left, MemDisk};
use recovery::{OpenFault, Pick, Shape, Store, format_device};
use refusal::Refusal;
use server::dump;
use server_threads::serve_streams;
use serving::InputStream;
use session::Stream;
use std::alloc::{AllocError, Global};
use std::sync::Wait;
use std::thread::Threads;

/// The device has 1,600 bytes, and the first record's gate is byte 1,097.
const SMALL: Shape = Shape {
    slots: 2,
    slot: 256,
    docs: 2,
    cell: 256,
    sources: 4,
    keep: 2,
};

/// One whose cells hold a document of four letters with a whole window. The device has 2,112 bytes.
const ROOMY: Shape = Shape {
    slots: 2,
    slot: 256,
    docs: 2,
    cell: 384,
    sources: 4,
    keep: 2,
};

const LINES: &str = "{\"do\":\"hello\",\"source\":\"a\"}\n\
    {\"do\":\"create\",\"doc\":\"d\",\"n\":1,\"ops\":[{\"insert\":\"z\"}]}\n";

/// The bytes that a stop leaves of the first record's gate, in turn.
const GATES: [u8; 2] = [0x3c, 0xa5];

/// A device of so many bytes that was formatted, with no call known.
fn formatted(alloc: Global, len: usize, shape: Shape) -> Result<MemDisk, Refusal> {
    let mut disk = MemDisk::new(alloc, len)?;
    format_device(alloc, &mut disk, shape)?;
    let bytes = disk.bytes().to_vec(alloc)?;
    Ok(MemDisk::holding(alloc, bytes))
}

fn small(alloc: Global) -> Result<MemDisk, Refusal> {
    formatted(alloc, 1_600, SMALL)
}

fn opened<D: Disk + Drop>(alloc: Global, disk: D) -> Result<Store<D>, Refusal> {
    match Store::open(alloc, disk, Pick::Newer) {
        Ok(store) => Ok(store),
        Err(OpenFault { disk: _, refusal }) => Err(refusal),
    }
}

/// Serves these lines over a store, with milestones two revisions apart, and gives the device then and what was written.
fn ended<R: Threads + Wait + AllocGlobal + Sync>(
    rt: &R,
    store: Store<FaultDisk>,
    lines: &str,
) -> Result<(FaultDisk, String), AllocError> {
    let input = InputStream::new(lines.as_bytes());
    let output = Stream::new(Vec::new(rt.alloc()));
    let streamed = serve_streams(rt, rt.alloc(), store, input, output, 2, &Nobody);
    let written = streamed.output.into_writer();
    let written = String::from_utf8_lossy(rt.alloc(), &written)?;
    Ok((streamed.store.close(), written))
}

/// Serves hello and the creation of `d` over a small device.
fn served<R: Threads + Wait + AllocGlobal + Sync>(
    rt: &R,
    disk: MemDisk,
    plan: FaultPlan,
) -> Result<(FaultDisk, String), Refusal> {
    let store = opened(rt.alloc(), FaultDisk::new(disk, plan))?;
    Ok(ended(rt, store, LINES)?)
}

/// Nothing goes wrong.
fn never() -> FaultPlan {
    FaultPlan::stop(u64::MAX, Left::Nothing)
}

fn is_gate(call: &Call) -> bool {
    match call {
        Call::Write { at, .. } => *at == 1_097,
        _ => false,
    }
}

/// The number of the call that opens the first record's gate, where nothing goes wrong, and what is written then.
fn gate_call<R: Threads + Wait + AllocGlobal + Sync>(rt: &R) -> Result<(u64, String), Refusal> {
    let (disk, written) = served(rt, small(rt.alloc())?, never())?;
    match disk.disk().calls().iter().position(is_gate) {
        Some(call) => Ok((call as u64, written)),
        None => Err(Refusal::BadShape),
    }
}

/// The documents of a store over a device, as they are printed.
fn dumped<D: Disk>(alloc: Global, store: &Store<D>) -> Result<String, AllocError> {
    let mut output = Stream::new(Vec::new(alloc));
    let _ = dump(alloc, store.state(), &mut output);
    String::from_utf8_lossy(alloc, &output.into_writer())
}

/// The documents of the store on what a crash leaves of a device, and the replies to the same lines over it.
fn after_crash<R: Threads + Wait + AllocGlobal + Sync>(
    rt: &R,
    disk: &FaultDisk,
) -> Result<String, Refusal> {
    let store = opened(rt.alloc(), disk.after_crash(rt.alloc())?)?;
    let documents = dumped(rt.alloc(), &store)?;
    let (_disk, written) = served(rt, disk.after_crash(rt.alloc())?, never())?;
    Ok(format!(in rt.alloc(); "{documents}{written}")?)
}

/// The creation is stopped by this call while its gate opens, which leaves this of the gate: what is written then, the documents after a
/// crash, and what is written of the same lines.
fn stopped_by<R: Threads + Wait + AllocGlobal + Sync>(
    rt: &R,
    call: u64,
    byte: u8,
) -> Result<String, Refusal> {
    let plan = FaultPlan::stop(call, Left::Byte(byte));
    let (disk, written) = served(rt, small(rt.alloc())?, plan)?;
    let after = after_crash(rt, &disk)?;
    Ok(format!(in rt.alloc(); "gate {byte}\n{written}after a crash\n{after}")?)
}

/// What is written where nothing goes wrong, and of a creation that is stopped while its gate opens, which leaves each of these bytes of it.
pub fn at_the_gate<R: Threads + Wait + AllocGlobal + Sync>(rt: &R) -> Result<String, Refusal> {
    let (call, mut text) = gate_call(rt)?;
    for byte in GATES {
        let lines = stopped_by(rt, call, byte)?;
        text.push_str(lines.as_str())?;
    }
    Ok(text)
}

/// The journal of such a store is freed a few times on the way to this revision.
const LAST: u64 = 16;

const CREATE: &str = "{\"do\":\"hello\",\"source\":\"a\"}\n\
    {\"do\":\"create\",\"doc\":\"d\",\"n\":1,\"ops\":[{\"insert\":\"zzzz\"}]}\n";

/// What is left of the unsynced ranges, in turn.
const LEFTS: [Left; 3] = [Left::Nothing, Left::All, Left::FirstHalf];

/// How many commands were answered as taken.
fn taken_in(written: &str) -> u64 {
    written.matches("\"ok\":\"taken\"").count() as u64
}

/// The operations of the document at a revision from 1 on, as they are printed.
fn content_at(alloc: Global, revision: u64) -> Result<String, AllocError> {
    let mut text = String::new(alloc);
    for back in 0..4 {
        let made = revision.saturating_sub(back);
        let letter = if made >= 2 { letter(made) } else { 'z' };
        text.push(letter)?;
    }
    format!(in alloc; "{{\"ops\":[{{\"insert\":\"{text}\"}}]}}\n")
}

/// What is wrong where the documents of a store, as they are printed, don't end with the content of this revision.
fn ends_with(alloc: Global, store: &Store<MemDisk>, revision: u64) -> Result<String, AllocError> {
    let dumped = dumped(alloc, store)?;
    let content = content_at(alloc, revision)?;
    if dumped.as_str().ends_with(content.as_str()) {
        return Ok(String::new(alloc));
    }
    format!(in alloc; "{dumped} at {revision}\n")
}

/// What is wrong where the store over a device doesn't hold the document at this revision, or at the next one.
fn holds_taken(alloc: Global, disk: MemDisk, taken: u64) -> Result<String, Refusal> {
    let store = opened(alloc, disk)?;
    let revision = match store.state().documents().first() {
        Some(document) => document.revision(),
        None => 0,
    };
    if revision != taken && revision != taken.saturating_add(1) {
        return Ok(format!(in alloc; "{revision} after {taken}\n")?);
    }
    if revision == 0 {
        return Ok(String::new(alloc));
    }
    Ok(ends_with(alloc, &store, revision)?)
}

/// The device stops at a call. What is wrong where what was taken before isn't there after a crash. A stop while the store is opened refuses
/// that.
fn outlives<R: Threads + Wait + AllocGlobal + Sync>(
    rt: &R,
    lines: &str,
    plan: FaultPlan,
) -> Result<String, Refusal> {
    let disk = formatted(rt.alloc(), 2_112, ROOMY)?;
    match opened(rt.alloc(), FaultDisk::new(disk, plan)) {
        Ok(store) => outlives_in(rt, store, lines),
        Err(_) => Ok(String::new(rt.alloc())),
    }
}

fn outlives_in<R: Threads + Wait + AllocGlobal + Sync>(
    rt: &R,
    store: Store<FaultDisk>,
    lines: &str,
) -> Result<String, Refusal> {
    let (stopped, written) = ended(rt, store, lines)?;
    let taken = taken_in(written.as_str());
    holds_taken(rt.alloc(), stopped.after_crash(rt.alloc())?, taken)
}

/// How many calls are made where nothing goes wrong, and how many lines are answered as taken.
fn calls_of<R: Threads + Wait + AllocGlobal + Sync>(
    rt: &R,
    lines: &str,
) -> Result<(u64, u64), Refusal> {
    let disk = formatted(rt.alloc(), 2_112, ROOMY)?;
    let store = opened(rt.alloc(), FaultDisk::new(disk, never()))?;
    let (whole, written) = ended(rt, store, lines)?;
    let count = whole.disk().calls().len() as u64;
    Ok((count, taken_in(written.as_str())))
}

/// How many lines are answered as taken where nothing goes wrong, and what is wrong where the device stops at one of its calls.
pub fn at_each_call<R: Threads + Wait + AllocGlobal + Sync>(rt: &R) -> Result<String, Refusal> {
    let edits = edits(rt.alloc(), 1, LAST)?;
    let lines = format!(in rt.alloc(); "{CREATE}{edits}")?;
    let (count, taken) = calls_of(rt, lines.as_str())?;
    let mut text = format!(in rt.alloc(); "{taken} taken\n")?;
    for call in 0..count {
        for left in LEFTS {
            let wrong = outlives(rt, lines.as_str(), FaultPlan::stop(call, left))?;
            text.push_str(wrong.as_str())?;
        }
    }
    Ok(text)
}
