// way.rs: a way behind its tag values, as one read.
#![tactic(auto)]

ghost use Rattle.std.specs.Prelude.{◌≡◌};
ghost use Rattle.parsing.specs.Parse.{map_res};
ghost use Rattle.format.specs.Lent.{deliver};
ghost use Rattle.format.specs.BodyLists.{body_lists};
ghost use Rattle.format.specs.Tile.{body};
ghost use Rattle.way_data.specs.Reply.{lent};
ghost use Rattle.byte_source.specs.Answers.{read_res};
ghost use Rattle.way.specs.Way.{body_of, body_with, body_reply};

use byte_source::{Read, Span};
use error::LentRefusal;
use types::Position;
use way_fields::WayFields;
use way_measure::Sizes;

// Texts are raw parts of the map. `blocks` and `nodes` count its coordinate blocks and all their nodes; they stand first, where a refusal would, so
// that what reads a body is small enough to be inlined. `plain`: whether every number was.
#[derive(Clone, Copy)]
pub struct WayBody {
    pub blocks: u64,
    pub nodes: u64,
    pub name: Option<Span>,
    pub house_number: Option<Span>,
    pub reference: Option<Span>,
    pub label_position: Option<Position>,
    pub double_delta: bool,
    pub plain: bool,
}

fn body_with(fields: WayFields, sizes: Sizes) -> WayBody
    ensures { result ≡ body_with fields sizes }
{
    WayBody {
        name: fields.name,
        house_number: fields.house_number,
        reference: fields.reference,
        label_position: fields.label_position,
        double_delta: fields.double_delta,
        blocks: sizes.blocks,
        nodes: sizes.nodes,
        plain: fields.plain & sizes.plain,
    }
}

// The body of a way and the place behind it; its nodes are passed, not written.
pub fn measure_way_body(map: &[u8], at: usize) -> Read<WayBody>
    ensures { read_res result ≡ map_res body_of (body map.now at) }
{
    let (fields, at) = way_fields::read_way_fields(map, at)?;
    let (sizes, at) = way_measure::measure_way_data(map, at, fields.data_blocks)?;
    Ok((body_with(fields, sizes), at))
}

// The body of a way, decoded whole; then its node counts, latitudes and longitudes go to the fronts of the lists.
// Each list is a parameter: of a struct of &muts every function would have to promise, too, that its fields are the same lists.
pub fn read_way_body(
    map: &[u8],
    at: usize,
    node_counts: &mut [u64],
    latitudes: &mut [f64],
    longitudes: &mut [f64],
) -> Result<(WayBody, usize), LentRefusal>
    ensures { body_reply result node_counts.new latitudes.new longitudes.new ≡ deliver body_of body_lists (body map.now at) (lent node_counts.old latitudes.old longitudes.old) }
{
    let (fields, at) = way_fields::read_way_fields(map, at)?;
    let (sizes, at) = way_data::read_way_data(
        map,
        at,
        fields.data_blocks,
        fields.double_delta,
        node_counts,
        latitudes,
        longitudes,
    )?;
    Ok((body_with(fields, sizes), at))
}
