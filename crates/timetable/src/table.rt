// The day table: a network of connections and footpaths.
ghost use Rattle.std.specs.Prelude.{◌≡◌, ◌≤◌, [], length, Some, IfOk, vec_capacity, MatchResult};
ghost use Rattle.networks.specs.Networks.{Meaning};
ghost use Rattle.refusals.specs.Verdicts.{Verdict};
ghost use Rattle.refusals.specs.declared.Refusal.TheVariants.{OfTable};
ghost use Rattle.refusals.specs.declared.TableRefusal.{TableRefusal};
ghost use Rattle.timetable.specs.DayTables.{at_edge, day_table, Breaks, table_order, ConnectionStopsFit, FootpathStopsFit};
ghost use Rattle.timetable.specs.declared.edge.Edge.TheVariants.{Ride, Walk};
ghost use Rattle.timetable.specs.Lawfully.{table_lawful};

use crate::checks::check_records;
use crate::edge::Edge;
use crate::records::{Connection, Footpath};
use crate::refilling::refill;
use networks::Network;
use refusals::Refusal;
use std::alloc::{AllocError, Global};

#[derive(Drop)]
pub struct DayTable {
    connections: Vec<Connection>,
    footpaths: Vec<Footpath>,
    ghost kept: { (r : TableRefusal) → Breaks connections.items footpaths.items r → ⊥ },
    ghost connections_few: { length connections.items ≤ 3072 },
    ghost footpaths_few: { length footpaths.items ≤ 1024 },
    ghost connection_stops: { ConnectionStopsFit connections.items },
    ghost footpath_stops: { FootpathStopsFit footpaths.items },
    ghost connection_room: { 3072 ≤ vec_capacity connections },
    ghost footpath_room: { 1024 ≤ vec_capacity footpaths },
}

impl DayTable {
    // The empty table, with room for every table that can be filled.
    pub fn new(heap: Global) -> Result<DayTable, AllocError>
        ensures { IfOk result (λ t. (t.connections.items ≡ []) × (t.footpaths.items ≡ [])) }
    {
        let connections = Vec::with_capacity(heap, 3072)?;
        let footpaths = Vec::with_capacity(heap, 1024)?;
        Ok(DayTable {
            connections,
            footpaths,
        })
    }

    // Holds these records in place of what was held, or refuses and stays as it is.
    pub fn fill(
        &mut self,
        connections: &[Connection],
        footpaths: &[Footpath],
    ) -> Result<(), Refusal>
        ensures answer { Verdict OfTable table_order (Breaks connections.now footpaths.now) result }
        ensures after { MatchResult result (λ _. (self.new.connections.items ≡ connections.now) × (self.new.footpaths.items ≡ footpaths.now)) (λ _. self.new ≡ self.old) }
    {
        check_records(connections, footpaths)?;
        refill(&mut self.connections, connections);
        refill(&mut self.footpaths, footpaths);
        Ok(())
    }

    pub fn connections(&self) -> &[Connection]
        ensures { result.now ≡ self.now.connections.items }
    {
        self.connections.as_slice()
    }

    pub fn footpaths(&self) -> &[Footpath]
        ensures { result.now ≡ self.now.footpaths.items }
    {
        self.footpaths.as_slice()
    }
}

impl DayTable {
    // Edge numbers go through the connections and then through the footpaths.
    fn edge_at(&self, edge: u16) -> Option<Edge>
        ensures { result ≡ at_edge (λ c. Some (Ride c)) (λ f. Some (Walk f)) self.now.connections.items self.now.footpaths.items edge }
    {
        let edge = edge as usize;
        // A match, since a closure behind `or_else` would not know that the edge stands behind the connections.
        match self.connections.get(edge) {
            Some(connection) => Some(Edge::Ride(*connection)),
            None => Some(Edge::Walk(*self.footpaths.get(edge - self.connections.len())?)),
        }
    }
}

impl Network for DayTable {
    ghost meaning = { λ t. day_table t.connections.items t.footpaths.items };

    ghost lawful = { λ t. table_lawful t.connections.items t.footpaths.items t.connections_few t.footpaths_few t.kept t.connection_stops t.footpath_stops };

    fn count(&self) -> u16 {
        (self.connections.len() + self.footpaths.len()) as u16
    }

    fn ends(&self, edge: u16) -> Option<(u8, u8)> {
        Some(self.edge_at(edge)?.ends())
    }

    fn lookup(&self, edge: u16, instant: u32) -> Option<u32> {
        self.edge_at(edge)?.arrival(instant)
    }
}
