//! Texts, checks in order and their first fault, refusals and their numbers, and the limits.
#![tactic(auto)]

ghost use Rattle.std.specs.Prelude.{◌≡◌};
ghost use Rattle.rm_base.specs.Codes.{refuse};

pub mod codes;
pub mod text;

use std::alloc::AllocError;

/// Want of memory, where it is the only refusal.
pub type NoMemory = AllocError;

/// One refusal: its code, the file it speaks of, and two numbers whose meaning the code gives.
#[derive(Clone, Copy, Debug, PartialEq, Eq)]
pub struct Refusal {
    pub code: u8,
    pub file: u8,
    pub a: u64,
    pub b: u64,
}

/// Why reading gave nothing: its first refusal, or want of memory, which may come at any time.
#[derive(Clone, Copy, Debug, PartialEq, Eq)]
pub enum ReadFault {
    Refused(Refusal),
    NoMemory,
}

impl Refusal {
    /// A refusal: its code and its file, which are those of `codes`, and the two numbers that the code tells the meaning of.
    pub fn new(code: u8, file: u8, a: u64, b: u64) -> Refusal
        ensures { result ≡ refuse code file a b }
    {
        Refusal { code, file, a, b }
    }
}

impl ReadFault {
    /// The same, as a fault.
    pub fn refused(code: u8, file: u8, a: u64, b: u64) -> ReadFault
        ensures { result ≡ ReadFault.Refused (refuse code file a b) }
    {
        ReadFault::Refused(Refusal::new(code, file, a, b))
    }
}
