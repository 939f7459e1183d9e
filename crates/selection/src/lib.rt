// Which ways a window and rules select: requests 10 and 9. What a stream does that goes by them is in specs/; exports has the call.
#![tactic(auto)]

ghost use Rattle.std.specs.Prelude.{◌≡◌, min};
ghost use Rattle.selection.specs.Selects.{in_window, by_rules, selects};

use tagged::TagIds;

// Which ways are selected: where `by_window`, those that share a cell with `mask`; where `by_rules`, those that the checked table shows at
// `zoom`. No Options: these ask more of callers, who may hand in any mask beside `by_window` false.
#[derive(Clone, Copy)]
pub struct Selection {
    pub by_window: bool,
    pub mask: u16,
    pub by_rules: bool,
    pub zoom: u8,
}

// Whether the window leaves a way with this bitmap.
fn in_window(selection: Selection, bitmap: u16) -> bool
    ensures { result ≡ in_window selection bitmap }
{
    !selection.by_window || window::shares_cell(bitmap, selection.mask)
}

// Whether the rules leave a way with these tags.
fn by_rules(selection: Selection, classes: &[u8], tags: TagIds) -> bool
    ensures { result ≡ by_rules selection classes.now tags }
{
    if !selection.by_rules {
        return true;
    }
    let count = tags.count.min(tags.ids.len());
    showing::shows(classes, selection.zoom, &tags.ids[..count])
}

// Whether a way with this bitmap and these tags is selected.
pub fn is_selected(selection: Selection, classes: &[u8], bitmap: u16, tags: TagIds) -> bool
    ensures { result ≡ selects selection classes.now bitmap tags }
{
    in_window(selection, bitmap) && by_rules(selection, classes, tags)
}
