// What comes of a check of showing rules, and whether a way is shown, as words for programs in other languages. An answer writes its own
// words; the others keep their values.
#![tactic(auto)]

ghost use Rattle.std.specs.Prelude.{◌≡◌, [], ◌∷◌};
ghost use Rattle.wire.specs.Wire.{wire, lending};
ghost use Rattle.showing_wire.specs.Rules.{checked_wire, shown_wire, put_place};

use showing::RulesRefusal;

// A tag id and a zoom.
fn put_place(id: usize, zoom: usize, words: &mut [u64; 6])
    ensures { wire 0 (words.new ∷ []) [] [] ≡ put_place id zoom (lending (words.old ∷ []) [] []) }
{
    words[0] = id as u64;
    words[1] = zoom as u64;
}

pub fn put_checked(got: Result<(), RulesRefusal>, words: &mut [u64; 6]) -> u64
    ensures { wire result (words.new ∷ []) [] [] ≡ checked_wire (lending (words.old ∷ []) [] []) got }
{
    match got {
        Ok(()) => 0,
        Err(RulesRefusal::InvalidRules) => 22,
        Err(RulesRefusal::RulesOverlap(id, zoom)) => {
            put_place(id, zoom, words);
            23
        }
        Err(RulesRefusal::RulesGap(id, zoom)) => {
            put_place(id, zoom, words);
            24
        }
        Err(RulesRefusal::Short(n)) => {
            words[0] = n as u64;
            words[1] = 0;
            words[2] = 0;
            words[3] = 0;
            words[4] = 0;
            words[5] = 0;
            15
        }
    }
}

pub fn put_shown(shown: bool, words: &mut [u64; 7]) -> u64
    ensures { wire result (words.new ∷ []) [] [] ≡ shown_wire (lending (words.old ∷ []) [] []) shown }
{
    words[6] = u64::from(shown);
    0
}
