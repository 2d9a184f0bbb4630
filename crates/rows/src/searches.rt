// Searches: a tag is held where its number stands.
ghost use Rattle.std.specs.Prelude.{◌≡◌, ◌≤◌, length, take, drop};
ghost use Rattle.templates.specs.Templates.{any};
ghost use Rattle.rows.specs.Rows.{holds_row, held_behind, memory_before, produced_in, in_register, filled_from, is_filled};

use crate::{codes, places};
use isa::Tag;

// The walk stops at the first row that has the number among its operands: a loop that yields by break, left by a label, is the
// form that the scope paper names for it.
fn held_from(ts: &[[u64; 3]], n: usize, from: usize, tag: u64) -> bool
    requires { n ≤ length ts.now }
    ensures { result ≡ any (holds_row tag) (drop from (take n ts.now)) }
{
    let mut i = from;
    'walk: loop {
        if i >= n {
            break 'walk false;
        }
        for j in 1..3 {
            if ts[i][j] == tag {
                break 'walk true;
            }
        }
        i += 1;
    }
}

// Whether one of the first n templates, behind place p, holds the tag that the one at p makes.
pub fn held_behind(ts: &[[u64; 3]], n: usize, p: usize) -> bool
    ensures { result ≡ held_behind n p ts.now }
{
    let end = places::held(ts, n);
    if p >= end {
        return false;
    }
    let tag = codes::waiting(places::tag(ts, p));
    held_from(ts, end, p + 1, tag)
}

// Whether one of the first n templates is a Load or a Store.
pub fn memory_before(ts: &[[u64; 3]], n: usize) -> bool
    ensures { result ≡ memory_before n ts.now }
{
    ts.iter()
        .take(n)
        .any(|row| codes::kind_of(row[0]) >= crate::LOAD)
}

// Whether one of the first n templates makes the tag.
pub fn produced(ts: &[[u64; 3]], n: usize, t: Tag) -> bool
    ensures { result ≡ produced_in n t ts.now }
{
    ts.iter().take(n).any(|row| codes::tag_of(row[0]) == t)
}

pub fn held_by_register(rf: &[u64], t: Tag) -> bool
    ensures { result ≡ in_register t rf.now }
{
    rf.contains(&codes::waiting(t))
}

// Whether a row from a place on isn't the blank.
pub fn filled_from(ts: &[[u64; 3]], from: usize) -> bool
    ensures { result ≡ filled_from from ts.now }
{
    ts.iter().skip(from).any(
        |row|
            ensures { result ≡ is_filled row.now }
        { *row != crate::BLANK },
    )
}
