// The edges of a row, on the very definitions that the contracts cite.
#![tactic(auto)]

ghost use Rattle.edges.specs.Edges.{EdgesHold};
ghost use Rattle.edges.specs.Table.{TableHolds};

pub fn edges_hold()
    ensures { EdgesHold }
{}

// One table of edges, with whole files.
pub fn table_holds()
    ensures { TableHolds }
{}
