//! The edges of the channel dependency graph.
ghost use Rattle.std.specs.Prelude.{IfOk, length, ◌≡◌};
ghost use Rattle.c104_check.specs.{ChannelDependencies.AreByLabels, Edges.{AreAllEdges, AreEdgesBefore, edge_of}, Routes.IsAccepted};
ghost use Rattle.{c104_check.specs.Routes.routes_of, c104_plan.specs.PlanImage.Fits};

use crate::dependencies::Dependency;
use crate::ports::SwitchPort;
use crate::routes::Routes;
use c104_plan::{Image, Plan};
use c104_regs::LINKS;
use c104_token::{Items, NoMemory};
use std::alloc::{AllocError, Global};

/// An input that depends on another: a packet with this header that came in here may have to wait until what came in
/// at the other has gone on.
#[derive(Clone, Copy, Debug)]
pub struct DependencyEdge {
    /// The input.
    pub input: SwitchPort,
    /// The other, at the far end of a link that the header may take.
    pub next: SwitchPort,
    /// The highest such header: a label of some terminal, or a random header that is put before packets.
    pub header: u32,
}

/// The dependencies of all inputs on one another in the accepted network of an image for a plan, each once: by input, and
/// then by the link over which packets go on. Those by random headers are among them, and those by labels behind these;
/// where no random headers are put before packets, they are those by labels alone. It fails only when out of memory.
pub fn channel_dependencies(
    alloc: Global,
    plan: &Plan,
    image: &Image,
) -> Result<Items<DependencyEdge>, NoMemory>
    requires fits { Fits image.now plan.now }
    requires accepted { IsAccepted (routes_of plan.now image.now) }
    ensures edges { IfOk result (AreAllEdges (routes_of plan.now image.now)) }
    ensures plain { IfOk result (λ _. AreByLabels (routes_of plan.now image.now)) }
{
    let routes = Routes::new(alloc, plan, image)?;
    let table = routes.dependencies(alloc)?;
    let edges = edges_of(alloc, table.as_slice())?;
    Ok(Items::new(edges))
}

/// The edges of a table of dependencies.
fn edges_of(alloc: Global, table: &[Option<Dependency>]) -> Result<Vec<DependencyEdge>, AllocError>
    ensures { IfOk result (λ edges. AreEdgesBefore table.now (length table.now) edges.items) }
{
    let mut edges = Vec::new(alloc);
    for place in 0..table.len() {
        if let Some(dependency) = table[place] {
            edges.push(edge_at(place, dependency))?;
        }
    }
    Ok(edges)
}

/// The edge of the dependency at a place of a table.
fn edge_at(place: usize, dependency: Dependency) -> DependencyEdge
    ensures { result ≡ edge_of place dependency }
{
    DependencyEdge {
        input: SwitchPort::at(place / LINKS),
        next: dependency.next,
        header: dependency.header,
    }
}
