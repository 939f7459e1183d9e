// What a tile's stream will want, as words for programs in other languages. An answer writes its own words; the others keep their values.
#![tactic(auto)]

ghost use Rattle.std.specs.Prelude.{◌≡◌, [], ◌∷◌};
ghost use Rattle.wire.specs.Wire.{wire, lending};
ghost use Rattle.wanted_wire.specs.Figures.{wanted_wire};

use error::Refusal;
use wanted::WantedFigures;

// How many points and accepted ways there are, the most blocks and nodes of one way, and the longest text.
pub fn put_wanted(got: Result<WantedFigures, Refusal>, words: &mut [u64; 11]) -> u64
    ensures { wire result (words.new ∷ []) [] [] ≡ wanted_wire (lending (words.old ∷ []) [] []) got }
{
    match got {
        Ok(figures) => {
            words[6] = figures.points;
            words[7] = figures.ways;
            words[8] = figures.blocks;
            words[9] = figures.nodes;
            words[10] = figures.text;
            0
        }
        Err(r) => wire::put_refusal(r, words),
    }
}
