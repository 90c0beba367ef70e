//! Words that the system gives, and aren't texts.
use std::alloc::{AllocError, Global};
use std::env::{Env, FillError};
use words::given;

/// A system that gives two words, where the second one isn't UTF-8.
#[derive(Drop)]
struct Latin(Global);

impl Env for Latin {
    fn arg(&self, i: usize, buf: &mut [u8]) -> Result<usize, FillError> {
        let byte = match i {
            0 => b'r',
            1 => 0xe9,
            _ => return Err(FillError::NotPresent),
        };
        match buf.first_mut() {
            Some(place) => {
                *place = byte;
                Ok(1)
            }
            None => Err(FillError::TooLong),
        }
    }

    fn var(&self, _name: &str, _buf: &mut [u8]) -> Result<usize, FillError> {
        Err(FillError::NotPresent)
    }

    fn var_at(&self, _i: usize, _buf: &mut [u8]) -> Result<usize, FillError> {
        Err(FillError::NotPresent)
    }
}

impl Alloc for Latin {
    type A = Global;

    fn alloc(&self) -> Global {
        self.0
    }
}

/// What is told of these words: the kind of the fault, and whether its text names the help.
pub fn told(alloc: Global) -> Result<String, AllocError> {
    match given(&Latin(alloc)) {
        Ok(_) => String::from_str(alloc, "texts\n"),
        Err(fault) => told_of(alloc, &fault),
    }
}

fn told_of(alloc: Global, fault: &clap::Error) -> Result<String, AllocError> {
    let shown = format!(in alloc; "{fault}")?;
    let names_help = shown.as_str().contains("--help");
    let kind = fault.kind();
    format!(in alloc; "{kind:?}\nnames --help: {names_help}\n")
}
