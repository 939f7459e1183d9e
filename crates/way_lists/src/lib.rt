// way.rs: a way's nodes and its blocks' initial positions, written to lent lists.
#![tactic(auto)]

ghost use Rattle.way_lists.specs.WayLists.{ListsWritten};

// Where a way's body starts and how many blocks it has.
#[derive(Clone, Copy)]
pub struct ListPlan {
    pub start: usize,
    pub blocks: usize,
}

// What is planned of a way's body; with no plan nothing is written. If one of the first three lists is too short, all three stay as they are, and the initial positions
// are found in what they hold: a caller tests the room first. A list of initial positions that is too short stays as it is.
// Each list is a parameter: of a struct of &muts every function would have to promise, too, that its fields are the same lists.
pub fn write_lists(
    map: &[u8],
    plan: Option<ListPlan>,
    node_counts: &mut [u64],
    latitudes: &mut [f64],
    longitudes: &mut [f64],
    initial_latitudes: &mut [f64],
    initial_longitudes: &mut [f64],
)
    ensures { ListsWritten map.now plan node_counts.old latitudes.old longitudes.old initial_latitudes.old initial_longitudes.old node_counts.new latitudes.new longitudes.new initial_latitudes.new initial_longitudes.new }
{
    let Some(plan) = plan else {
        return;
    };
    // a body that is refused writes nothing
    let _ = way::read_way_body(map, plan.start, node_counts, latitudes, longitudes);
    let n = plan.blocks.min(node_counts.len());
    let counts = &node_counts[..n];
    initial_positions::write_initials(counts, latitudes, initial_latitudes);
    initial_positions::write_initials(counts, longitudes, initial_longitudes);
}
