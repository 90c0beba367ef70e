//! Work that was given a thread, or got none.
ghost use Rattle.std.specs.Prelude.{vec_len};
ghost use Rattle.sockets.specs.Begun.{EndsAs, EndAs};
ghost use Rattle.sockets.specs.Room.{HasRoom};

use std::thread::{Promise, PromisedHandle, Threads};

/// Work that runs in a thread, which promises what comes of it; or what came of it, where the system gave no thread.
#[derive(Drop)]
pub enum BegunWork<T, P: Promise<T>> {
    InThread(PromisedHandle<T, P>),
    WithoutThread(T),
}

/// What comes of all work, in its order, once it has ended.
pub fn end_all<T: Drop, P: Promise<T>, R: Threads>(
    rt: &R,
    begun: Vec<BegunWork<T, P>>,
    ended: Vec<T>,
) -> Vec<T>
    requires { HasRoom (vec_len begun) ended }
    ensures { EndAs P.Promise begun.items result.items }
{
    let mut ended = ended;
    for one in begun {
        let Ok(()) = ended.push(end(rt, one)) else {
            unreachable!()
        };
    }
    ended
}

// What comes of work once it has ended.
fn end<T, P: Promise<T>, R: Threads>(rt: &R, begun: BegunWork<T, P>) -> T
    ensures { EndsAs P.Promise begun result }
{
    match begun {
        BegunWork::InThread(thread) => thread.join(rt),
        BegunWork::WithoutThread(result) => result,
    }
}
