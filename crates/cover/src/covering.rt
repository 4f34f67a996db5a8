// From judged tables to places: the table is laid out, walked over, and its halves give the strings their places.
ghost use Rattle.std.specs.Prelude.{◌≡◌, ◌+◌, ◌*◌, ◌≤◌, ◌<◌, length, drop};
ghost use Rattle.collection.specs.Ready.{Strung};
ghost use Rattle.cover_trails.specs.Places.{signed};
ghost use Rattle.cover_tours.specs.Layout.{Fits, tables};
ghost use Rattle.cover_vertices.specs.Promises.{ends_from};
ghost use Rattle.cover.specs.Covering.{counted, placed_by, place_all, Covering};

// The signed place of a number.
fn place_for(n: usize, turned: bool) -> i32
    requires { n ≤ 1048576 }
    ensures { result ≡ signed n turned }
{
    if turned {
        return -(n as i32);
    }
    n as i32
}

// Gives the string of half c the place after n, unless c is of a spoke, and answers how many strings then have places.
fn place_one(places: &mut [i32], m: usize, n: usize, c: usize) -> usize
    requires { (length places.old ≡ m) × (n < 1048576) }
    ensures { (places.new ≡ placed_by m n c places.old) × (result ≡ counted m n c) }
{
    if c < 2 * m {
        let p = place_for(n + 1, c % 2 == 1);
        places[c / 2] = p;
        return n + 1;
    }
    n
}

// Gives the strings their places in the order of the halves from entry `start` of the stack on.
fn write_places(work: &[u32], m: usize, start: usize, places: &mut [i32])
    requires { Fits m work.now × (start ≤ 3 * m) × (length places.old ≡ m) }
    ensures { places.new ≡ place_all m 0 (drop start (tables m work.now).stack) places.old }
{
    let mut n = 0;
    for c in &work[12 * m + start..15 * m] {
        n = place_one(places, m, n, *c as usize);
    }
}

// Covers the strings: fills the places, leaves the work table zero, and answers the number of paths.
pub(crate) fn cover_strings(
    k: usize,
    ends: &[u32],
    weights: &[u32],
    places: &mut [i32],
    work: &mut [u32],
) -> usize
    requires { Strung k ends.now weights.now × Fits (length ends.now) work.old × (length places.old ≡ length ends.now) }
    ensures { Covering (ends_from k 0 ends.now weights.now) (length ends.now) places.new work.new result }
{
    let m = ends.len();
    cover_vertices::inner::lay_out(k, ends, weights, work);
    let tour = cover_tours::inner::walk_all(work, m);
    let start = tour.start;
    write_places(work, m, start, places);
    collection::inner::zero_first(work, 16 * m);
    // The stack holds m strings and O spokes from `start` on, so 2m - start is O; and each later walk is the path of an even group.
    (2 * m - start) / 2 + tour.walks
}
