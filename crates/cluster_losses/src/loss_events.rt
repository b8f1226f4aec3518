// The events by which racks, nodes and storages are lost.
ghost use Rattle.std.specs.Prelude.{◌≡◌, ◌==◌, ◌++◌, ◌∷◌, [], true, false, Some, None, is_some, is_none, length, map, option_to_list, IfOk, IfErr, IfSome, OnOk, if◌then◌else◌};
ghost use Rattle.bm_base.specs.Words.{has, has_repeats};
ghost use Rattle.cluster_lost.specs.Losses.{are_losses};
ghost use Rattle.cluster_losses.specs.Events.{death, failure, drain, events_of};
ghost use Rattle.cluster_losses.specs.NamedStorages.{AreNamed, AreAdded, IsFaultOf, named_by, storages_named, is_unknown, first_unknown, with_all, with_one};
ghost use Rattle.cluster_losses.specs.declared.loss.Kind.TheVariants as kind_of;

use crate::fault::Fault;
use crate::loss::{Kind, Loss, Question};
use crate::name_lookup::{nodes_in, nodes_named, storage_named};
use bm_base::{Event, NodeId, StorageId};
use cluster_input::loaded_cluster::Loaded;
use std::alloc::{AllocError, Global};

/// The lost nodes and storages, each once.
#[derive(Drop)]
pub struct Lost {
    pub drained: Vec<NodeId>,
    pub storages: Vec<StorageId>,
    pub nodes: Vec<NodeId>,
}

impl Lost {
    fn new(alloc: Global) -> Lost
        ensures drained { result.drained.items ≡ [] }
        ensures storages { result.storages.items ≡ [] }
        ensures nodes { result.nodes.items ≡ [] }
    {
        Lost {
            drained: Vec::new(alloc),
            storages: Vec::new(alloc),
            nodes: Vec::new(alloc),
        }
    }

    /// The nodes and storages that these losses name. `Unknown` with the kind of the first one that
    /// names nothing.
    pub fn named(alloc: Global, loaded: &Loaded, losses: &[Loss<'_>]) -> Result<Lost, Fault>
        ensures lost { IfOk result (AreNamed loaded.now.session.book.topology.cluster
            loaded.now.names losses.now) }
        ensures nodes_once { IfOk result (λ it. has_repeats it.nodes.items ≡ false) }
        ensures drained_once { IfOk result (λ it. has_repeats it.drained.items ≡ false) }
        ensures storages_once { IfOk result (λ it. has_repeats it.storages.items ≡ false) }
        ensures known { OnOk result (first_unknown loaded.now.session.book.topology.cluster
            loaded.now.names losses.now ≡ None) }
        ensures fault { IfErr result (IsFaultOf (first_unknown
            loaded.now.session.book.topology.cluster loaded.now.names losses.now)) }
    {
        let mut lost = Lost::new(alloc);
        for loss in losses {
            lost.add(alloc, loaded, loss)?;
        }
        Ok(lost)
    }

    /// Adds the nodes or the storage of one loss.
    fn add(&mut self, alloc: Global, loaded: &Loaded, loss: &Loss<'_>) -> Result<(), Fault>
        ensures lost { OnOk result (AreAdded (named_by loaded.now.session.book.topology.cluster
            loaded.now.names loss.now.kind loss.now.name.now) loss.now.kind
            self.old self.new) }
        ensures known { OnOk result (is_unknown loaded.now.session.book.topology.cluster
            loaded.now.names loss.now ≡ false) }
        ensures fault { IfErr result (IsFaultOf (first_unknown
            loaded.now.session.book.topology.cluster loaded.now.names (loss.now ∷ []))) }
    {
        match loss.kind {
            Kind::Rack => {
                let nodes = nodes_in(alloc, loaded, loss.name)?;
                add_nodes(&mut self.nodes, nodes.as_slice(), loss.kind)
            }
            Kind::Node => {
                let nodes = nodes_named(alloc, loaded, loss.name)?;
                add_nodes(&mut self.nodes, nodes.as_slice(), loss.kind)
            }
            Kind::Drain => {
                let nodes = nodes_named(alloc, loaded, loss.name)?;
                add_nodes(&mut self.drained, nodes.as_slice(), loss.kind)
            }
            Kind::Storage => {
                let storage = known_storage(loaded, loss.name);
                add_storage(&mut self.storages, storage)
            }
        }
    }

    /// First the nodes that drain, then the storages that fail, then the nodes that die, so that
    /// each is known when its event comes.
    pub fn events(&self, alloc: Global) -> Result<Vec<Event>, AllocError>
        ensures events { IfOk result (λ v. v.items ≡ events_of self.now) }
        ensures losses { IfOk result (λ v. are_losses v.items ≡ true) }
    {
        let mut events = Vec::new(alloc);
        add_drains(&mut events, self.drained.as_slice())?;
        add_failures(&mut events, self.storages.as_slice())?;
        add_deaths(&mut events, self.nodes.as_slice())?;
        Ok(events)
    }
}

/// The first loss whose name the cluster does not have; none if memory is refused before it.
pub fn unknown_of<'a>(alloc: Global, loaded: &Loaded, question: &Question<'a>) -> Option<Loss<'a>>
    ensures { IfSome result (λ loss. is_unknown loaded.now.session.book.topology.cluster
        loaded.now.names loss ≡ true) }
{
    let Question::Losses(losses) = question else {
        return None;
    };
    for loss in losses.as_slice() {
        match Lost::named(alloc, loaded, &[*loss]) {
            Ok(_) => {}
            Err(Fault::Unknown(_)) => return Some(*loss),
            Err(_) => return None,
        }
    }
    None
}

/// The storage of this name, if the cluster has it.
fn known_storage(loaded: &Loaded, name: &str) -> Option<StorageId>
    ensures { option_to_list result ≡ storages_named loaded.now.session.book.topology.cluster
        loaded.now.names name.now }
{
    match storage_named(loaded, name) {
        Some(storage) if loaded.session.book.topology.knows_storage(storage) => Some(storage),
        _ => None,
    }
}

/// Adds the named storage, unless the list has it; `Unknown` if there is none.
fn add_storage(storages: &mut Vec<StorageId>, named: Option<StorageId>) -> Result<(), Fault>
    ensures added { OnOk result (storages.new.items
        ≡ with_all storages.old.items (option_to_list named)) }
    ensures known { OnOk result (is_some named ≡ true) }
    ensures fault { IfErr result (IsFaultOf
        (if is_none named then Some kind_of.Storage else None)) }
{
    let Some(storage) = named else {
        return Err(Fault::Unknown(Kind::Storage));
    };
    push_storage(storages, storage)?;
    Ok(())
}

/// Adds the named nodes, unless the list has them; `Unknown` if there are none.
fn add_nodes(nodes: &mut Vec<NodeId>, named: &[NodeId], kind: Kind) -> Result<(), Fault>
    ensures added { OnOk result (nodes.new.items ≡ with_all nodes.old.items named.now) }
    ensures known { OnOk result ((length named.now == 0) ≡ false) }
    ensures fault { IfErr result (IsFaultOf
        (if length named.now == 0 then Some kind else None)) }
{
    if named.is_empty() {
        return Err(Fault::Unknown(kind));
    }
    for node in named {
        push_node(nodes, *node)?;
    }
    Ok(())
}

fn push_node(nodes: &mut Vec<NodeId>, node: NodeId) -> Result<(), AllocError>
    ensures { OnOk result (nodes.new.items ≡ with_one nodes.old.items node) }
{
    if has_node(nodes.as_slice(), node) {
        return Ok(());
    }
    nodes.push(node)?;
    Ok(())
}

fn has_node(nodes: &[NodeId], node: NodeId) -> bool
    ensures { result ≡ has nodes.now node }
{
    nodes.iter().any(|other| *other == node)
}

fn push_storage(storages: &mut Vec<StorageId>, storage: StorageId) -> Result<(), AllocError>
    ensures { OnOk result (storages.new.items ≡ with_one storages.old.items storage) }
{
    if has_storage(storages.as_slice(), storage) {
        return Ok(());
    }
    storages.push(storage)?;
    Ok(())
}

fn has_storage(storages: &[StorageId], storage: StorageId) -> bool
    ensures { result ≡ has storages.now storage }
{
    storages.iter().any(|other| *other == storage)
}

#[tactic(auto, using(crate::proofs::Steps::losses_and))]
fn add_drains(events: &mut Vec<Event>, nodes: &[NodeId]) -> Result<(), AllocError>
    requires { are_losses events.old.items ≡ true }
    ensures events { OnOk result (events.new.items
        ≡ events.old.items ++ map drain nodes.now) }
    ensures losses { OnOk result (are_losses events.new.items ≡ true) }
{
    for node in nodes {
        events.push(Event::Drain { node: *node })?;
    }
    Ok(())
}

#[tactic(auto, using(crate::proofs::Steps::losses_and))]
fn add_failures(events: &mut Vec<Event>, storages: &[StorageId]) -> Result<(), AllocError>
    requires { are_losses events.old.items ≡ true }
    ensures events { OnOk result (events.new.items
        ≡ events.old.items ++ map failure storages.now) }
    ensures losses { OnOk result (are_losses events.new.items ≡ true) }
{
    for storage in storages {
        events.push(Event::StorageFailed { storage: *storage })?;
    }
    Ok(())
}

#[tactic(auto, using(crate::proofs::Steps::losses_and))]
fn add_deaths(events: &mut Vec<Event>, nodes: &[NodeId]) -> Result<(), AllocError>
    requires { are_losses events.old.items ≡ true }
    ensures events { OnOk result (events.new.items
        ≡ events.old.items ++ map death nodes.now) }
    ensures losses { OnOk result (are_losses events.new.items ≡ true) }
{
    for node in nodes {
        events.push(Event::Dead { node: *node })?;
    }
    Ok(())
}
