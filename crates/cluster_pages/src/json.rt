// The report as one JSON value.
use crate::files_at_risk::{AtRisk, FileRow};
use crate::output::ClusterReport;
use crate::text::{all_block_bytes, all_blocks, all_replica_bytes, all_replicas, first_of};
use crate::text_parts::{
    bytes_on, level_word, path_at, remaining_on, replicas_on, state_word, thousandths,
};
use bm_base::BlockId;
use cluster_input::loaded_cluster::Loaded;
use cluster_names::{Files, Names};
use cluster_report::levels::{LevelBytes, LevelCounts, Leveled};
use cluster_report::nodes::{NodeRow, StorageRow};
use cluster_report::tag_counts::{TagBytes, TagCounts};
use serde::Serialize;
use serde_json::Error;
use std::alloc::{AllocError, Global};

#[derive(Drop, Serialize)]
struct ReportJson<'a> {
    calls: u64,
    rounds: u64,
    nodes: Vec<NodeJson<'a>>,
    blocks: BlocksJson,
    replicas: ReplicasJson,
    excess: usize,
    transfers: usize,
    missing_blocks: Vec<BlockJson<'a>>,
    urgent_blocks: Vec<UrgentJson<'a>>,
    lost_files: Option<FilesJson<'a>>,
    endangered_files: Option<FilesJson<'a>>,
}

#[derive(Drop, Serialize)]
struct NodeJson<'a> {
    node: u32,
    host: Option<&'a str>,
    rack: u32,
    rack_name: Option<&'a str>,
    state: &'a str,
    replicas: u128,
    bytes: u128,
    per_mille: u128,
    remaining: u128,
    storages: Vec<StorageJson<'a>>,
}

#[derive(Drop, Serialize)]
struct StorageJson<'a> {
    storage: u32,
    name: Option<&'a str>,
    replicas: usize,
    bytes: u128,
    per_mille: u128,
    remaining: u64,
}

#[derive(Drop, Serialize)]
struct AmountJson {
    count: usize,
    bytes: u128,
    per_mille: u128,
}

#[derive(Drop, Serialize)]
struct BlocksJson {
    count: u128,
    bytes: u128,
    levels: LevelsJson,
}

#[derive(Drop, Serialize)]
struct LevelsJson {
    highest: AmountJson,
    very_under_replicated: AmountJson,
    under_replicated: AmountJson,
    badly_distributed: AmountJson,
    missing: AmountJson,
    none: AmountJson,
}

#[derive(Drop, Serialize)]
struct ReplicasJson {
    count: u128,
    bytes: u128,
    good: AmountJson,
    stale: AmountJson,
    bad: AmountJson,
    stray: AmountJson,
}

#[derive(Drop, Serialize)]
struct BlockJson<'a> {
    block: u64,
    file: Option<&'a str>,
    index: Option<u64>,
}

#[derive(Drop, Serialize)]
struct UrgentJson<'a> {
    block: u64,
    level: &'a str,
    file: Option<&'a str>,
    index: Option<u64>,
}

#[derive(Drop, Serialize)]
struct FilesJson<'a> {
    count: usize,
    files: Vec<FileJson<'a>>,
}

#[derive(Drop, Serialize)]
struct FileJson<'a> {
    path: &'a str,
    blocks: usize,
}

/// The report as one JSON value on one line, with at most `most` blocks and files of each list.
pub fn make_json(
    alloc: Global,
    loaded: &Loaded,
    most: usize,
    cluster: &ClusterReport,
) -> Result<String, Error> {
    let report = &cluster.report;
    let (lost, endangered) = files_of(alloc, &loaded.files, most, &cluster.risk)?;
    let value = ReportJson {
        calls: report.calls,
        rounds: report.round,
        nodes: nodes_of(
            alloc,
            &loaded.names,
            all_replicas(&report.tags),
            report.nodes.as_slice(),
        )?,
        blocks: blocks_of(&report.levels, &report.level_bytes),
        replicas: replicas_of(&report.tags, &report.tag_bytes),
        excess: report.excess,
        transfers: report.transfers,
        missing_blocks: missing_of(
            alloc,
            &loaded.files,
            first_of(report.missing.as_slice(), most),
        )?,
        urgent_blocks: urgent_of(
            alloc,
            &loaded.files,
            first_of(report.urgent.as_slice(), most),
        )?,
        lost_files: lost,
        endangered_files: endangered,
    };
    serde_json::to_string(alloc, &value)
}

fn nodes_of<'a>(
    alloc: Global,
    names: &'a Names,
    all: u128,
    rows: &[NodeRow],
) -> Result<Vec<NodeJson<'a>>, AllocError> {
    let mut nodes = Vec::new(alloc);
    for row in rows {
        let storages = row.storages.as_slice();
        let node = NodeJson {
            node: row.node.0,
            host: names.host(row.node),
            rack: row.rack.0,
            rack_name: names.rack(row.rack),
            state: state_word(row.state),
            replicas: replicas_on(storages),
            bytes: bytes_on(storages),
            per_mille: thousandths(replicas_on(storages), all),
            remaining: remaining_on(storages),
            storages: storages_of(alloc, names, all, storages)?,
        };
        nodes.push(node)?;
    }
    Ok(nodes)
}

fn storages_of<'a>(
    alloc: Global,
    names: &'a Names,
    all: u128,
    rows: &[StorageRow],
) -> Result<Vec<StorageJson<'a>>, AllocError> {
    let mut storages = Vec::new(alloc);
    for row in rows {
        storages.push(StorageJson {
            storage: row.storage.0,
            name: names.storage(row.storage),
            replicas: row.replicas,
            bytes: row.bytes,
            per_mille: thousandths(row.replicas as u128, all),
            remaining: row.remaining,
        })?;
    }
    Ok(storages)
}

/// A count, its bytes, and its part of the total.
fn amount(count: usize, bytes: u128, total: u128) -> AmountJson {
    AmountJson {
        count,
        bytes,
        per_mille: thousandths(count as u128, total),
    }
}

fn blocks_of(levels: &LevelCounts, bytes: &LevelBytes) -> BlocksJson {
    BlocksJson {
        count: all_blocks(levels),
        bytes: all_block_bytes(bytes),
        levels: levels_of(levels, bytes, all_blocks(levels)),
    }
}

fn levels_of(levels: &LevelCounts, bytes: &LevelBytes, all: u128) -> LevelsJson {
    LevelsJson {
        highest: amount(levels.highest, bytes.highest, all),
        very_under_replicated: amount(
            levels.very_under_replicated,
            bytes.very_under_replicated,
            all,
        ),
        under_replicated: amount(levels.under_replicated, bytes.under_replicated, all),
        badly_distributed: amount(levels.badly_distributed, bytes.badly_distributed, all),
        missing: amount(levels.missing, bytes.missing, all),
        none: amount(levels.none, bytes.none, all),
    }
}

fn replicas_of(tags: &TagCounts, bytes: &TagBytes) -> ReplicasJson {
    let all = all_replicas(tags);
    ReplicasJson {
        count: all,
        bytes: all_replica_bytes(bytes),
        good: amount(tags.good, bytes.good, all),
        stale: amount(tags.stale, bytes.stale, all),
        bad: amount(tags.bad, bytes.bad, all),
        stray: amount(tags.stray, 0, all),
    }
}

fn missing_of<'a>(
    alloc: Global,
    files: &'a Files,
    blocks: &[BlockId],
) -> Result<Vec<BlockJson<'a>>, AllocError> {
    let mut found = Vec::new(alloc);
    for block in blocks {
        let place = files.path_of(*block);
        found.push(BlockJson {
            block: block.0,
            file: place.map(|it| it.0),
            index: place.map(|it| it.1),
        })?;
    }
    Ok(found)
}

fn urgent_of<'a>(
    alloc: Global,
    files: &'a Files,
    blocks: &[Leveled],
) -> Result<Vec<UrgentJson<'a>>, AllocError> {
    let mut found = Vec::new(alloc);
    for leveled in blocks {
        if let Some(level) = leveled.level {
            let place = files.path_of(leveled.block);
            found.push(UrgentJson {
                block: leveled.block.0,
                level: level_word(level),
                file: place.map(|it| it.0),
                index: place.map(|it| it.1),
            })?;
        }
    }
    Ok(found)
}

/// The lost and the endangered files; nothing if no file is known.
fn files_of<'a>(
    alloc: Global,
    files: &'a Files,
    most: usize,
    risk: &AtRisk,
) -> Result<(Option<FilesJson<'a>>, Option<FilesJson<'a>>), AllocError> {
    if files.file_count() == 0 {
        return Ok((None, None));
    }
    let lost = rows_of(alloc, files, most, risk.lost.as_slice())?;
    let endangered = rows_of(alloc, files, most, risk.endangered.as_slice())?;
    Ok((Some(lost), Some(endangered)))
}

fn rows_of<'a>(
    alloc: Global,
    files: &'a Files,
    most: usize,
    rows: &[FileRow],
) -> Result<FilesJson<'a>, AllocError> {
    let mut found = Vec::new(alloc);
    for row in first_of(rows, most) {
        found.push(FileJson {
            path: path_at(files, row.file),
            blocks: row.blocks,
        })?;
    }
    Ok(FilesJson {
        count: rows.len(),
        files: found,
    })
}
