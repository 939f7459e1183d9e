// Next with no quick reader, for the comparison driver alone, which holds the library's next to it. It is no part of the library that ships.
#![tactic(auto)]

ghost use Rattle.std.specs.Prelude.{[], ◌∷◌};
ghost use Rattle.agreement.specs.Stream.{on_next};
ghost use Rattle.tile_layout.specs.TileLayout.{kinds_of, format_of};
ghost use Rattle.visit.specs.Visit.{state_of, shown_step, NextIs};
ghost use Rattle.wire.specs.Wire.{wire, lending, Crosses};
ghost use Rattle.header_wire.specs.Header.{layout_in};
ghost use Rattle.stream_wire.specs.Streams.{stream_in, next_wire};

use tile_layout::TileFormat;

// The parameters and the contract of `mapsforge_stream_next`, with its `NextOf` written out.
#[unsafe(no_mangle)]
pub extern "C" fn mapsforge_general_next(
    map: &[u8],
    layout: &[u64; 7],
    letters: &[u8],
    state: &mut [u64; 8],
    words: &mut [u64; 22],
    signed_words: &mut [i64; 2],
    degrees: &mut [f64; 2],
    ids: &mut [u64; 15],
) -> u64
    ensures { Crosses (next_wire (lending (words.old ∷ ids.old ∷ state.old ∷ []) signed_words.old degrees.old)) (NextIs (shown_step (on_next (format_of (kinds_of (layout_in layout.now) letters.now)) map.now (state_of (stream_in state.old))))) (wire result (words.new ∷ ids.new ∷ state.new ∷ []) signed_words.new degrees.new) }
{
    let layout = header_wire::layout_in(*layout);
    let format = TileFormat { layout, letters };
    let stream = stream_wire::stream_in(*state);
    let step = visit::next(map, format, stream);
    stream_wire::put_next(step, state, words, signed_words, degrees, ids)
}
