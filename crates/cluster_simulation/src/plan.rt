// The incidents of a run, and their round.

use crate::incident::Incident;
use crate::misuse::Misuse;
use crate::shape::Shape;
use std::alloc::{AllocError, Global};
use std::fmt;

/// The incidents, all in one round.
#[derive(Drop)]
pub struct Plan {
    pub round: u32,
    pub incidents: Vec<Incident>,
    /// The number of blocks with one replica that is found corrupt.
    pub corrupt: u32,
}

impl Plan {
    /// Whether nothing goes wrong.
    pub fn is_empty(&self) -> bool {
        self.incidents.is_empty() && self.corrupt == 0
    }
}

impl fmt::Display for Plan {
    fn fmt<W: fmt::Write>(&self, f: &mut fmt::Formatter<W>) -> fmt::Result {
        if self.is_empty() {
            return f.write_str("Nothing goes wrong");
        }
        let round = self.round;
        write!(f, "Round {round}: ")?;
        write_incidents(f, self.incidents.as_slice())?;
        write_corrupt(f, self.corrupt, self.incidents.is_empty())
    }
}

/// Writes the first two incidents, and the number of further ones.
fn write_incidents<W: fmt::Write>(
    f: &mut fmt::Formatter<W>,
    incidents: &[Incident],
) -> fmt::Result {
    match incidents {
        [] => Ok(()),
        [one] => write!(f, "{one}"),
        [one, other] => write!(f, "{one}, {other}"),
        [one, other, ..] => {
            let more = incidents.len().saturating_sub(2);
            write!(f, "{one}, {other}, and {more} more")
        }
    }
}

fn write_corrupt<W: fmt::Write>(
    f: &mut fmt::Formatter<W>,
    corrupt: u32,
    is_first: bool,
) -> fmt::Result {
    let comma = if is_first { "" } else { ", " };
    match corrupt {
        0 => Ok(()),
        1 => write!(f, "{comma}a replica is found corrupt"),
        _ => write!(f, "{comma}{corrupt} replicas are found corrupt"),
    }
}

/// The incidents that the values of `--lose` and `--drain` name in a cluster of this shape.
pub fn incidents_of<'a>(
    alloc: Global,
    shape: Shape,
    lose: &[&'a str],
    drain: &[&'a str],
) -> Result<Vec<Incident>, Misuse<'a>> {
    let mut incidents = Vec::new(alloc);
    for word in lose {
        let Some(incident) = loss_of(*word) else {
            return Err(Misuse::NoLoss(*word));
        };
        add(&mut incidents, validate(shape, incident)?)?;
    }
    for word in drain {
        let Some(node) = number_of(*word) else {
            return Err(Misuse::NoNode(*word));
        };
        add(&mut incidents, validate(shape, Incident::NodeDrains(node))?)?;
    }
    Ok(incidents)
}

fn add(incidents: &mut Vec<Incident>, incident: Incident) -> Result<(), AllocError> {
    incidents.push(incident)?;
    Ok(())
}

/// The incident that `rack:N`, `node:N` or `storage:N` names.
fn loss_of(word: &str) -> Option<Incident> {
    let (kind, number) = word.split_once(':')?;
    let number = number_of(number)?;
    match kind {
        "rack" => Some(Incident::RackDies(number)),
        "node" => Some(Incident::NodeDies(number)),
        "storage" => Some(Incident::DiskFails(number)),
        _ => None,
    }
}

fn number_of(word: &str) -> Option<u32> {
    word.parse::<u32>().ok()
}

/// The incident, if the cluster has what it names.
fn validate<'a>(shape: Shape, incident: Incident) -> Result<Incident, Misuse<'a>> {
    let (kind, number, count) = match incident {
        Incident::RackDies(rack) => ("rack", rack, shape.used_racks()),
        Incident::NodeDies(node) | Incident::NodeDrains(node) => ("node", node, shape.nodes),
        Incident::DiskFails(storage) => ("storage", storage, shape.all_storages()),
    };
    if number < count {
        Ok(incident)
    } else {
        Err(Misuse::Absent {
            kind,
            number,
            count,
        })
    }
}
