// Request 9: our own rules of which ways show at which zoom; their check, and what a checked table decides.
#![tactic(auto)]

ghost use Rattle.std.specs.Prelude.{◌≡◌, ℕ, ◌+◌, ◌*◌, ◌/◌, ◌<◌, ◌≤◌, min, length, get_or, nat_le, nat_eq};
ghost use Rattle.std.specs.List.{position_or_len};
ghost use Rattle.showing.specs.Showing.{rule_at, well_formed, formed, first_from, overlaps, gaps, checked_res, checked, Filled, After, zoom_of, class_in, shown};
ghost use Rattle.showing.specs.Steps.{Small, one_more, always, changed_in, Changed, Counted, joined};

// A rule: the zooms from lowest to highest of the way tag `id` have the class. Class 0 means hidden.
#[derive(Clone, Copy)]
pub struct Rule {
    pub id: usize,
    pub lowest: usize,
    pub highest: usize,
    pub class: u8,
}

// Why a check turns rules away. These refusals are no cases of `Refusal`: only a check gives them, and no read hands them up.
#[derive(Clone, Copy)]
pub enum RulesRefusal {
    // 22: the length is no multiple of 4, a tag id lies outside the map, or a lowest zoom is above its highest
    InvalidRules,
    // 23: two rules or more name this tag and zoom
    RulesOverlap(usize, usize),
    // 24: no rule names this tag and zoom
    RulesGap(usize, usize),
    // 15: the lent table is too short; the length that is needed
    Short(usize),
}

// The first cells that are named twice, and not at all; where there is none, the end of the cells looked at, and no Option: the definition
// `first_from` gives that end.
#[derive(Clone, Copy)]
struct Faults {
    overlap: usize,
    gap: usize,
}

// Rule k of the table. The loops below go by k and not by chunks of four bytes: the definitions speak of rule k, and a chunk would still have
// to be found as one.
fn rule_at(rules: &[u8], k: usize) -> Rule
    requires { k < length rules.now / 4 }
    ensures value { result ≡ rule_at rules.now k }
    ensures small { Small result }
{
    let at = 4 * k;
    let a = rules[at] as usize;
    let b = rules[at + 1] as usize;
    let c = rules[at + 2] as usize;
    let d = rules[at + 3];
    Rule {
        id: a * 256 + b,
        lowest: c / 8,
        highest: c % 8 * 4 + d as usize / 64,
        class: d % 64,
    }
}

// Whether the rule names a tag of the map, and its lowest zoom is not above its highest.
#[tactic(auto, unfolding(crate::specs::Showing::well_formed))]
fn well_formed(rule: Rule, tags: usize) -> bool
    ensures { result ≡ well_formed tags rule }
{
    rule.id < tags && rule.lowest <= rule.highest
}

// The first pass over the rules: false is refusal 22.
fn all_well_formed(rules: &[u8], tags: usize) -> bool
    ensures { result ≡ formed tags rules.now }
{
    let n = rules.len() / 4;
    if rules.len() % 4 != 0 {
        return false;
    }
    for k in 0..n {
        if !well_formed(rule_at(rules, k), tags) {
            return false;
        }
    }
    true
}

// A count with one more, cut at 2: whether a cell is named twice or five times is all the same.
fn one_more(n: u8) -> u8
    ensures { result ≡ one_more n }
{
    n.saturating_add(1).min(2)
}

// Counts one more of each cell from `start` to before `end`.
fn count_cells(counts: &mut [u8], start: usize, end: usize)
    requires { end ≤ length counts.old }
    ensures counts_len_unchanged { length counts.new ≡ length counts.old }
    ensures by_index { (j : ℕ) → get_or counts.new j 0 ≡ changed_in one_more start end counts.old j }
{
    for i in start..end {
        counts[i] = one_more(counts[i]);
    }
}

// Counts one more of each cell of the stretch that the rule names. A rule of another stretch is passed over by one test, which is what
// makes many passes cheap.
fn count_rule(counts: &mut [u8; 8192], stretch: usize, rule: Rule)
    requires { Small rule }
    ensures { Changed one_more rule (8192 * stretch) counts.old counts.new }
{
    if rule.id / 256 != stretch {
        return;
    }
    let first = rule.id % 256 * 32;
    count_cells(counts, first + rule.lowest, first + rule.highest + 1);
}

// Counts, cut at 2, how many rules name each cell of the stretch.
fn count_rules(rules: &[u8], counts: &mut [u8; 8192], stretch: usize)
    requires { (j : ℕ) → j < length counts.old → get_or counts.old j 0 ≡ 0 }
    ensures { Counted rules.now (length rules.now / 4) (8192 * stretch) counts.new }
{
    let n = rules.len() / 4;
    for k in 0..n {
        count_rule(counts, stretch, rule_at(rules, k));
    }
}

// The first count that is 2 or more, or their number.
fn first_twice(counts: &[u8]) -> usize
    ensures { result ≡ position_or_len (λ n. nat_le 2 n) counts.now }
{
    counts.iter().position(|n| 2 <= *n).unwrap_or(counts.len())
}

// The first count that is 0, or their number.
fn first_none(counts: &[u8]) -> usize
    ensures { result ≡ position_or_len (λ n. nat_eq n 0) counts.now }
{
    counts.iter().position(|n| *n == 0).unwrap_or(counts.len())
}

// The faults of the stretch's first n cells.
fn faults_of(rules: &[u8], counts: &mut [u8; 8192], stretch: usize, n: usize) -> Faults
    requires by_index { (j : ℕ) → j < length counts.old → get_or counts.old j 0 ≡ 0 }
    requires n_bound { n ≤ 8192 }
    requires stretch_bound { stretch ≤ 65536 }
    ensures overlap_value { result.overlap ≡ first_from (overlaps rules.now) n (8192 * stretch) }
    ensures gap_value { result.gap ≡ first_from (gaps rules.now) n (8192 * stretch) }
{
    count_rules(rules, counts, stretch);
    let from = 8192 * stretch;
    Faults {
        overlap: from + first_twice(&counts[..n]),
        gap: from + first_none(&counts[..n]),
    }
}

// Cells are looked at in stretches of 256 tags, each by one pass over the rules, so that no list has to be lent for the counts and they
// take no more than 8 KB of stack.
fn stretch_faults(rules: &[u8], stretch: usize, n: usize) -> Faults
    requires n_bound { n ≤ 8192 }
    requires stretch_bound { stretch ≤ 65536 }
    ensures overlap_value { result.overlap ≡ first_from (overlaps rules.now) n (8192 * stretch) }
    ensures gap_value { result.gap ≡ first_from (gaps rules.now) n (8192 * stretch) }
{
    let mut counts = [0u8; 8192];
    faults_of(rules, &mut counts, stretch, n)
}

// What was found before the end, or else what is found next.
fn join(found: usize, end: usize, next: usize) -> usize
    ensures { result ≡ joined found end next }
{
    if found < end {
        return found;
    }
    next
}

// The faults of all cells, stretch by stretch.
fn all_faults(rules: &[u8], cells: usize) -> Faults
    requires { cells ≤ 4194304 }
    ensures overlap_value { result.overlap ≡ first_from (overlaps rules.now) cells 0 }
    ensures gap_value { result.gap ≡ first_from (gaps rules.now) cells 0 }
{
    let mut overlap = 0;
    let mut gap = 0;
    for stretch in 0..cells.div_ceil(8192) {
        let from = 8192 * stretch;
        let faults = stretch_faults(rules, stretch, (cells - from).min(8192));
        overlap = join(overlap, from, faults.overlap);
        gap = join(gap, from, faults.gap);
    }
    Faults { overlap, gap }
}

// Gives the class to each cell from `start` to before `end`. Not one function with count_cells: that one writes by what stood there.
fn fill_cells(classes: &mut [u8], start: usize, end: usize, class: u8)
    requires { end ≤ length classes.old }
    ensures classes_len_unchanged { length classes.new ≡ length classes.old }
    ensures by_index { (j : ℕ) → get_or classes.new j 0 ≡ changed_in (always class) start end classes.old j }
{
    for i in start..end {
        classes[i] = class;
    }
}

// Gives the rule's class to each cell that it names, as far as the table goes.
fn fill_rule(classes: &mut [u8], rule: Rule)
    requires { Small rule }
    ensures { Changed (always rule.class) rule 0 classes.old classes.new }
{
    let first = 32 * rule.id + rule.lowest;
    let end = 32 * rule.id + rule.highest + 1;
    let stop = end.min(classes.len());
    fill_cells(classes, first, stop, rule.class);
}

// Puts the rules into the table.
fn fill_rules(rules: &[u8], classes: &mut [u8])
    ensures { Filled rules.now (length rules.now / 4) classes.old classes.new }
{
    let n = rules.len() / 4;
    for k in 0..n {
        fill_rule(classes, rule_at(rules, k));
    }
}

// Checks the rules of a map with so many way tags, and fills the lent table with the class of each tag and zoom, at 32 tag + zoom. Entries
// behind these keep their values, and rules that are turned away change nothing.
pub fn check_rules(rules: &[u8], tags: u16, classes: &mut [u8]) -> Result<(), RulesRefusal>
    ensures result_value { checked_res result ≡ checked tags rules.now (length classes.old) }
    ensures after { After (checked_res result) rules.now classes.old classes.new }
{
    let count = tags as usize;
    let cells = 32 * count;
    if !all_well_formed(rules, count) {
        return Err(RulesRefusal::InvalidRules);
    }
    let faults = all_faults(rules, cells);
    let overlap = faults.overlap;
    let gap = faults.gap;
    if overlap < cells {
        return Err(RulesRefusal::RulesOverlap(overlap / 32, overlap % 32));
    }
    if gap < cells {
        return Err(RulesRefusal::RulesGap(gap / 32, gap % 32));
    }
    if classes.len() < cells {
        return Err(RulesRefusal::Short(cells));
    }
    fill_rules(rules, classes);
    Ok(())
}

// The zoom of a cell: those above 31 count as 31.
fn zoom_of(zoom: u8) -> usize
    ensures { (result ≡ zoom_of zoom) × (result < 32) }
{
    usize::from(zoom.min(31))
}

// The class of a tag at a zoom; 0 behind the table's end.
fn class_in(classes: &[u8], zoom: u8, id: u64) -> u8
    ensures { result ≡ class_in classes.now zoom id }
{
    // an id of 2^59 or more lies behind the end of every slice, and its place could wrap
    if 576460752303423487 < id {
        return 0;
    }
    let at = (id as usize) * 32 + zoom_of(zoom);
    if classes.len() <= at {
        return 0;
    }
    classes[at]
}

// Whether a way with these tag ids is accepted at the zoom asked for, by a checked table.
pub fn shows(classes: &[u8], zoom: u8, ids: &[u64]) -> bool
    ensures { result ≡ shown classes.now zoom ids.now }
{
    for &id in ids {
        if class_in(classes, zoom, id) != 0 {
            return true;
        }
    }
    false
}
