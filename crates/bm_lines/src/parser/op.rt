// The names of the calls in an input line.
ghost use Rattle.std.specs.Prelude.{◌≡◌};
ghost use Rattle.bm_lines.specs.Parser.Op.{event_of, question_of, op_of};

/// Which call a line names.
#[derive(Clone, Copy, Debug, PartialEq, Eq)]
pub enum Op {
    Register,
    Heartbeat,
    Dead,
    StorageFailed,
    Drain,
    Undrain,
    Add,
    Delete,
    SetReplication,
    Restamp,
    Received,
    Deleted,
    Corrupt,
    Report,
    Round,
    ListReplicas,
    ListCorrupt,
    ListMissing,
    ListExcess,
    ListStorage,
    ListPlaces,
    Level,
    Retired,
}

/// The call of this name, if there is one.
pub fn op_of(name: &str) -> Option<Op>
    ensures { result ≡ op_of name.now }
{
    match event_of(name) {
        Some(op) => Some(op),
        None => question_of(name),
    }
}

/// The event of this name.
fn event_of(name: &str) -> Option<Op>
    ensures { result ≡ event_of name.now }
{
    match name {
        "register" => Some(Op::Register),
        "heartbeat" => Some(Op::Heartbeat),
        "dead" => Some(Op::Dead),
        "storage_failed" => Some(Op::StorageFailed),
        "drain" => Some(Op::Drain),
        "undrain" => Some(Op::Undrain),
        "add" => Some(Op::Add),
        "delete" => Some(Op::Delete),
        "set_replication" => Some(Op::SetReplication),
        "restamp" => Some(Op::Restamp),
        "received" => Some(Op::Received),
        "deleted" => Some(Op::Deleted),
        "corrupt" => Some(Op::Corrupt),
        "report" => Some(Op::Report),
        _ => None,
    }
}

/// The round, or the question of this name.
fn question_of(name: &str) -> Option<Op>
    ensures { result ≡ question_of name.now }
{
    match name {
        "round" => Some(Op::Round),
        "list_replicas" => Some(Op::ListReplicas),
        "list_corrupt" => Some(Op::ListCorrupt),
        "list_missing" => Some(Op::ListMissing),
        "list_excess" => Some(Op::ListExcess),
        "list_storage" => Some(Op::ListStorage),
        "list_places" => Some(Op::ListPlaces),
        "level" => Some(Op::Level),
        "retired" => Some(Op::Retired),
        _ => None,
    }
}
