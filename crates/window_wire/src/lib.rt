// The tiles of a window as words for programs in other languages. An answer writes its own words; the others keep their values.
#![tactic(auto)]

ghost use Rattle.std.specs.Prelude.{◌≡◌, [], ◌∷◌};
ghost use Rattle.wire.specs.Wire.{wire, lending};
ghost use Rattle.window_wire.specs.Windows.{window_count_wire, window_tile_wire};

use error::Refusal;
use window::WindowTile;

// How many tiles there are.
pub fn put_window_count(got: Result<u64, Refusal>, words: &mut [u64; 7]) -> u64
    ensures { wire result (words.new ∷ []) [] [] ≡ window_count_wire (lending (words.old ∷ []) [] []) got }
{
    match got {
        Ok(n) => {
            words[6] = n;
            0
        }
        Err(r) => wire::put_refusal(r, words),
    }
}

// A tile: 1, its number and its mask, and its column and row; or 0.
pub fn put_window_tile(
    got: Result<Option<WindowTile>, Refusal>,
    words: &mut [u64; 9],
    column_row: &mut [i64; 2],
) -> u64
    ensures { wire result (words.new ∷ []) column_row.new [] ≡ window_tile_wire (lending (words.old ∷ []) column_row.old []) got }
{
    match got {
        Ok(None) => {
            words[6] = 0;
            0
        }
        Ok(Some(t)) => {
            let column = i64::from(t.x);
            let row = i64::from(t.y);
            column_row[0] = column;
            column_row[1] = row;
            words[6] = 1;
            words[7] = t.number as u64;
            words[8] = t.mask as u64;
            0
        }
        Err(r) => wire::put_refusal(r, words),
    }
}
