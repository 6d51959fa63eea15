ghost use Rattle.std.specs.Prelude.{◌≡◌, ◌↔◌, Contains, IfOk};
ghost use Rattle.ficus_ids.specs.declared.id.Id.{Id as IdValue};
ghost use Rattle.ficus_reach.specs.Leads.{LeadsIn};
ghost use Rattle.ficus_reach.specs.Edge.{Edges, IsSortedByDir};
ghost use Rattle.ficus_reach.specs.declared.edge.Edge.{Edge as EdgeValue};

use ficus_entry::Entries;
use ficus_ids::{Id, Memory};
use std::alloc::Global;

/// A way from a directory to an object that an entry in it names.
#[derive(Clone, Copy)]
pub struct Edge {
    pub dir: Id,
    pub target: Id,
}

/// The edges of the live entries, by directory.
pub fn edges_of(alloc: Global, entries: &Entries) -> Result<Vec<Edge>, Memory>
    ensures edges { IfOk result (λ edges. (dir object : IdValue) →
        Edges edges.items dir object ↔ LeadsIn entries.now dir object) }
    ensures sorted { IfOk result (λ edges. IsSortedByDir edges.items) }
{
    let in_order = entries.in_order()?;
    let mut edges = Vec::new(alloc);
    for index in 0..in_order.len() {
        let entry = in_order.at(index);
        if entry.is_live() {
            edges.push(Edge {
                dir: entry.dir,
                target: entry.target,
            })?;
        }
    }
    edges.sort_unstable_by_key(|edge| edge.dir);
    Ok(edges)
}

/// The edges out of the directory.
pub fn edges_from(edges: &[Edge], dir: Id) -> &[Edge]
    requires { IsSortedByDir edges.now }
    ensures { (edge : EdgeValue) →
        Contains result.now edge ↔ (Contains edges.now edge × (edge.dir ≡ dir)) }
{
    let start = edges.partition_point(|edge| edge.dir < dir);
    let rest = &edges[start..];
    let end = rest.partition_point(|edge| edge.dir <= dir);
    &rest[..end]
}
