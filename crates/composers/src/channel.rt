//! The channels between the thread that writes and the composers.
ghost use Rattle.std.specs.Prelude.{◌≡◌, IfErr};
ghost use Rattle.crossbeam_channel.specs.Claims.{IsSeatAt};
ghost use Rattle.crossbeam_channel.specs.Ends.{sends_on, receives_on, ruled_capacity};

use crossbeam_channel::protocol::{Free, Split};
use crossbeam_channel::{Pass, RuledReceiver, RuledSender, bounded_with};
use milestone::{ComposeError, Composed, Job};
use std::alloc::{AllocError, Global};
use std::sync::Wait;

/// So many jobs wait for a composer at most, and so many answers for the thread that writes.
const PLACES: usize = 64;

/// What came of a job, or the job where there was no memory for it.
pub type Done = Result<Composed, ComposeError>;

/// A further pass knows nothing, as the first one does.
struct Further;

impl Split<()> for Further {
    ghost left = { λ v. v };

    ghost right = { λ v. v };
}

/// An end at which messages are sent, with its pass.
#[derive(Drop)]
struct Outlet<T: Drop> {
    end: RuledSender<T, (), Free>,
    pass: Pass<T, ()>,
    ghost seated: { IsSeatAt (sends_on end) pass },
}

/// An end at which messages come, with its pass.
#[derive(Drop)]
struct Inlet<T: Drop> {
    end: RuledReceiver<T, (), Free>,
    pass: Pass<T, ()>,
    ghost seated: { IsSeatAt (receives_on end) pass },
}

impl<T: Drop> Outlet<T> {
    // Sends a message where there is a place for it, else it comes back.
    fn try_send<R: Wait>(&mut self, rt: &R, message: T) -> Result<(), T>
        ensures back { IfErr result (λ back. back ≡ message) }
    {
        match self.end.try_send_as::<Free, R>(rt, &mut self.pass, message) {
            Ok(()) => Ok(()),
            Err(e) => Err(e.into_inner()),
        }
    }

    // Sends a message once there is a place for it; it comes back where the other ends are gone.
    fn send<R: Wait>(&mut self, rt: &R, message: T) -> Result<(), T> {
        match self.end.send_as::<Free, R>(rt, &mut self.pass, message) {
            Ok(()) => Ok(()),
            Err(e) => Err(e.into_inner()),
        }
    }
}

impl<T: Drop> Inlet<T> {
    // A message, where one has come.
    fn try_recv<R: Wait>(&mut self, rt: &R) -> Option<T> {
        match self.end.try_recv_as::<Free, R>(rt, &mut self.pass) {
            Ok(message) => Some(message),
            Err(_) => None,
        }
    }

    // The next message, `None` where the other ends are gone.
    fn recv<R: Wait>(&mut self, rt: &R) -> Option<T> {
        match self.end.recv_as::<Free, R>(rt, &mut self.pass) {
            Ok(message) => Some(message),
            Err(_) => None,
        }
    }
}

/// The ends of the thread that writes.
#[derive(Drop)]
pub struct Composers {
    jobs: Outlet<Job>,
    done: Inlet<Done>,
}

impl Composers {
    /// Hands a job to the composers. It comes back where no place is free, or they are gone.
    pub fn hand_out<R: Wait>(&mut self, rt: &R, job: Job) -> Result<(), Job>
        ensures back { IfErr result (λ back. back ≡ job) }
    {
        self.jobs.try_send(rt, job)
    }

    /// What came of a job, where an answer has come.
    pub fn take_back<R: Wait>(&mut self, rt: &R) -> Option<Done> {
        self.done.try_recv(rt)
    }
}

/// The ends of a composer.
#[derive(Drop)]
pub struct Worker {
    jobs: Inlet<Job>,
    done: Outlet<Done>,
}

impl Worker {
    /// The next job, `None` once the thread that writes has gone and no job is left.
    pub(crate) fn next<R: Wait>(&mut self, rt: &R) -> Option<Job> {
        self.jobs.recv(rt)
    }

    /// Hands on what came of a job. It comes back where the thread that writes has gone.
    pub(crate) fn hand_on<R: Wait>(&mut self, rt: &R, done: Done) -> Result<(), Done> {
        self.done.send(rt, done)
    }
}

// A channel with one end where messages are sent, and two where they come.
fn spread<T: Drop>(alloc: Global) -> Result<(Outlet<T>, Inlet<T>, Inlet<T>), AllocError> {
    let (sender, receiver, first) = bounded_with::<T, (), Free, Global>(alloc, PLACES)?;
    let mut pass = first;
    let one = sender.another::<Further>(&mut pass);
    let two = sender.another::<Further>(&mut pass);
    let other = receiver.try_clone()?;
    Ok((
        Outlet { end: sender, pass },
        Inlet {
            end: receiver,
            pass: one,
        },
        Inlet {
            end: other,
            pass: two,
        },
    ))
}

// A channel with two ends where messages are sent, and one where they come.
fn gathered<T: Drop>(alloc: Global) -> Result<(Outlet<T>, Outlet<T>, Inlet<T>), AllocError> {
    let (sender, receiver, first) = bounded_with::<T, (), Free, Global>(alloc, PLACES)?;
    let mut pass = first;
    let one = sender.another::<Further>(&mut pass);
    let two = sender.another::<Further>(&mut pass);
    let other = sender.try_clone()?;
    Ok((
        Outlet { end: sender, pass },
        Outlet {
            end: other,
            pass: one,
        },
        Inlet {
            end: receiver,
            pass: two,
        },
    ))
}

/// The two channels, by the ends of the thread that writes and those of two composers. Refused as out of memory alone.
pub fn channels(alloc: Global) -> Result<(Composers, Worker, Worker), AllocError> {
    let (out, first_jobs, second_jobs) = spread::<Job>(alloc)?;
    let (first_done, second_done, back) = gathered::<Done>(alloc)?;
    Ok((
        Composers {
            jobs: out,
            done: back,
        },
        Worker {
            jobs: first_jobs,
            done: first_done,
        },
        Worker {
            jobs: second_jobs,
            done: second_done,
        },
    ))
}
