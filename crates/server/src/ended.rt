//! Why the program ends with status 1 or 2.
ghost use Rattle.std.specs.Prelude.{◌≡◌, Ok, OnOk};

use disk::FileDisk;
use refusal::Refusal;
use serving::ServingError;
use std::fmt::{self, Display, Formatter};
use std::io::{self, Write};
use words::LinesError;

/// What is tried with an address.
pub(crate) const LISTENING: &str = "listening on";

/// What stands behind a `Fault`: what was tried, with which file or address, and the system's reason.
#[derive(Clone, Copy)]
pub(crate) struct FileCause<'a> {
    pub(crate) tried: &'static str,
    pub(crate) what: &'a str,
    pub(crate) reason: io::Error,
}

impl Display for FileCause<'_> {
    fn fmt<W: fmt::Write>(&self, f: &mut Formatter<W>) -> fmt::Result {
        let FileCause {
            tried,
            what,
            reason,
        } = self;
        write!(f, "{tried} {what}: {reason}")
    }
}

/// Why the program ends with status 1, or with 2.
#[derive(Drop)]
pub(crate) enum ProgramEnd<'a> {
    /// It was refused, which is printed on standard error, with the cause where the refusal has one.
    Refused(Refusal, Option<FileCause<'a>>),
    /// A standard stream failed, which is not printed.
    Stream,
    /// The words can't be used, which is printed.
    Usage(clap::Error),
}

impl<'a> ProgramEnd<'a> {
    /// A call of the system failed.
    pub(crate) fn fault(tried: &'static str, what: &'a str, reason: io::Error) -> ProgramEnd<'a> {
        ProgramEnd::Refused(
            Refusal::Fault,
            Some(FileCause {
                tried,
                what,
                reason,
            }),
        )
    }

    /// The refusal, where it is one.
    pub(crate) fn refusal(&self) -> Option<Refusal> {
        match self {
            ProgramEnd::Refused(refusal, _) => Some(*refusal),
            ProgramEnd::Stream | ProgramEnd::Usage(_) => None,
        }
    }

    /// It was refused while a store was read from a file or written to it.
    pub(crate) fn over(path: &'a str, disk: &FileDisk, refusal: Refusal) -> ProgramEnd<'a> {
        ProgramEnd::Refused(refusal, cause_of(path, disk, refusal))
    }

    /// It was refused while one file was read and another one written.
    pub(crate) fn over_two(
        old: (&'a str, &FileDisk),
        new: (&'a str, &FileDisk),
        refusal: Refusal,
    ) -> ProgramEnd<'a> {
        let cause = match cause_of(old.0, old.1, refusal) {
            Some(cause) => Some(cause),
            None => cause_of(new.0, new.1, refusal),
        };
        ProgramEnd::Refused(refusal, cause)
    }
}

/// How the program ends, where serving or printing did so.
pub(crate) fn as_ended<'a>(answer: Result<(), ServingError>) -> Result<(), ProgramEnd<'a>>
    ensures { OnOk result (answer ≡ Ok tt) }
{
    Ok(answer?)
}

/// How the program ends, where bringing the store of one file to another did so.
pub(crate) fn brought<'a>(
    old: (&'a str, &FileDisk),
    new: (&'a str, &FileDisk),
    made: Result<(), Refusal>,
) -> Result<(), ProgramEnd<'a>>
    ensures { OnOk result (made ≡ Ok tt) }
{
    match made {
        Ok(()) => Ok(()),
        Err(refusal) => Err(ProgramEnd::over_two(old, new, refusal)),
    }
}

impl From<ServingError> for ProgramEnd<'_> {
    fn from(failure: ServingError) -> Self {
        match failure {
            ServingError::Refused(refusal) => ProgramEnd::Refused(refusal, None),
            ServingError::Stream => ProgramEnd::Stream,
        }
    }
}

impl From<LinesError> for ProgramEnd<'_> {
    fn from(fault: LinesError) -> Self {
        match fault {
            LinesError::Usage(error) => ProgramEnd::Usage(error),
            LinesError::Stream => ProgramEnd::Stream,
        }
    }
}

/// What stands behind a refusal by a store in a file: the first call on the file that failed, where it is a `Fault`.
pub(crate) fn cause_of<'a>(
    path: &'a str,
    disk: &FileDisk,
    refusal: Refusal,
) -> Option<FileCause<'a>> {
    if refusal != Refusal::Fault {
        return None;
    }
    let fault = disk.fault()?;
    Some(FileCause {
        tried: fault.tried.name(),
        what: path,
        reason: fault.reason,
    })
}

/// Tells of a refusal, and on a line of its own what stands behind it.
pub(crate) fn tell<E: Write>(refusal: Refusal, cause: Option<FileCause<'_>>, errors: &mut E) {
    let _ = writeln!(errors, "{refusal}");
    if let Some(cause) = cause {
        let _ = writeln!(errors, "richd: {cause}");
    }
    let _ = errors.flush();
}
