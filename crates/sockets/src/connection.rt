//! A conversation over a connection.
ghost use Rattle.std.specs.Prelude.{◌≡◌, [], ◌∷◌};
ghost use Rattle.sockets.specs.Socket.{Closed};
ghost use Rattle.sockets.specs.Host.{number_read, number_written, reads_of, writes_of, reads_in, writes_in};
ghost use Rattle.sockets.specs.Desks.{Talks};

use crate::conversation::converse;
use crate::hall::Hall;
use crate::outgoing::Outgoing;
use crate::parting::Parting;
use crate::raw::{HostPeer, HostReader, HostWriter, Visit};
use crate::talk::Talk;
use session::Desk;
use std::alloc::Global;
use std::marker::Brand;
use std::sync::Wait;

/// Has a conversation over a connection until its peer closes it or is idle for too long, a call on it fails, or the hall ends. Out of memory
/// for the session the connection is left without a byte. Where a write fails the connection is shut down, and what is held back is dropped.
pub fn serve_peer<'h, K: Desk, R: Wait>(
    rt: &R,
    alloc: Global,
    hall: &'h Hall,
    desk: &mut K,
    peer: HostPeer,
) -> (Parting<'h>, Visit)
    ensures { Talks K.does hall.now.ended.id result.1 desk.old desk.new }
{
    match peer.split(alloc) {
        Ok((reader, writer)) => {
            serve_halves::<Brand, K, R>(rt, alloc, hall, desk, reader, writer)
        }
        Err(visit) => (Parting::NoMemory, visit),
    }
}

// Has a conversation over both halves of its connection.
fn serve_halves<'h, T: Talk, K: Desk, R: Wait>(
    rt: &R,
    alloc: Global,
    hall: &'h Hall,
    desk: &mut K,
    reader: HostReader,
    writer: HostWriter,
) -> (Parting<'h>, Visit)
    requires read { number_read reader ≡ T.connection }
    requires written { number_written writer ≡ T.connection }
    requires name { hall.now.ended.id ≡ T.hall }
    requires new { (reads_of reader ≡ []) × (writes_of writer ≡ []) }
    ensures { Talks K.does hall.now.ended.id result.1 desk.old desk.new }
{
    let mut reader = reader;
    let mut output = match Outgoing::<'_, T>::new(alloc, writer, hall) {
        Ok(output) => output,
        Err(writer) => return (Parting::NoMemory, Visit::of(reader, writer)),
    };
    let ended = converse(rt, alloc, hall, desk, &mut reader, &mut output);
    match output.finish() {
        Ok(writer) => match ended {
            Ok(why) => (why, Visit::of(reader, writer)),
            Err(_) => unreachable!(),
        },
        Err((writer, why)) => (why, cut_off(reader, writer)),
    }
}

// Shuts a connection down on which a write has failed.
fn cut_off(reader: HostReader, writer: HostWriter) -> Visit
    requires { number_written writer ≡ number_read reader }
    ensures reads { reads_in result ≡ reads_of reader }
    ensures writes { writes_in result ≡ Closed ∷ writes_of writer }
{
    let mut writer = writer;
    writer.close();
    Visit::of(reader, writer)
}
