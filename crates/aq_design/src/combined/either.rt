//! What stands for what: the joined site's, and the site's if there is none.
ghost use Rattle.std.specs.Prelude.{◌≡◌, ℕ, ◌+◌, ◌<◌, nat_lt, None, get_or, length};
ghost use Rattle.aq_design.specs.Combined.Pairs.{chosen};

use aq_series::Cell;

/// What a pair has at so many places, whose numbers follow one another from the first on: from a number on
/// the joined site's, if there is one, and else the site's.
pub(crate) fn of_either<const N: usize>(
    site: &[Option<Cell>; N],
    joined: &[Option<Cell>; N],
    first: u32,
    from: u32,
) -> [Option<Cell>; N]
    requires few { first + N < 4294967296 }
    ensures many { length result ≡ N }
    ensures cells { (k : ℕ) → k < N
        → get_or result k None ≡ chosen (nat_lt (first + k) from) (get_or site.now k None) (get_or joined.now k None) }
{
    let mut cells = [None; N];
    for i in 0..N {
        cells[i] = cell_at(first + i as u32, from, site[i], joined[i]);
    }
    cells
}

/// What a pair has at a place, by what both sites have there.
fn cell_at(place: u32, from: u32, site: Option<Cell>, joined: Option<Cell>) -> Option<Cell>
    ensures { result ≡ chosen (nat_lt place from) site joined }
{
    if place < from {
        return site;
    }
    if joined.is_some() { joined } else { site }
}
