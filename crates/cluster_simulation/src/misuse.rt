// Why a command line is invalid.

use std::alloc::AllocError;
use std::fmt;

#[derive(Clone, Copy)]
pub enum Misuse<'a> {
    Memory,
    /// A value of `--lose` is malformed.
    NoLoss(&'a str),
    /// A value of `--drain` is not a number.
    NoNode(&'a str),
    /// The cluster has only `count` of this kind, numbered from 0.
    Absent {
        kind: &'static str,
        number: u32,
        count: u32,
    },
    /// `--corrupt` asks for more replicas than there are blocks.
    FewBlocks {
        corrupt: u32,
        blocks: u32,
    },
    /// `--at` is after the last round.
    TooLate {
        round: u32,
        rounds: u32,
    },
}

impl From<AllocError> for Misuse<'_> {
    fn from(_: AllocError) -> Self {
        Misuse::Memory
    }
}

impl fmt::Display for Misuse<'_> {
    fn fmt<W: fmt::Write>(&self, f: &mut fmt::Formatter<W>) -> fmt::Result {
        match *self {
            Misuse::Memory => f.write_str("memory fault"),
            Misuse::NoLoss(word) => {
                write!(f, "'{word}' is none of rack:N, node:N and storage:N")
            }
            Misuse::NoNode(word) => write!(f, "'{word}' is not the number of a node"),
            Misuse::Absent {
                kind,
                number,
                count,
            } => {
                let last = count.saturating_sub(1);
                write!(f, "no {kind} {number}: they are numbered from 0 to {last}")
            }
            Misuse::FewBlocks { corrupt, blocks } => {
                write!(f, "--corrupt {corrupt} is more than the {blocks} blocks")
            }
            Misuse::TooLate { round, rounds } => {
                write!(f, "--at {round} is after the last round, {rounds}")
            }
        }
    }
}
