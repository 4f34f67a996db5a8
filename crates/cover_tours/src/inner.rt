// Walks over halves of strings and spokes. The regions of `work`, for m strings: vertices at 0, flags at 2m, rows at 5m, cursors at 9m, the stack at 12m.
ghost use Rattle.std.specs.Prelude.{◌≡◌, ◌+◌, ◌*◌, ◌/◌, ◌≤◌, ◌<◌, get_or};
ghost use Rattle.cover_tours.specs.Layout.{Fits, tables};
ghost use Rattle.cover_tours.specs.Halves.{near as near', other as other'};
ghost use Rattle.cover_tours.specs.Rows.{Graph, Cursor, Cursors, Sought, Answer};
ghost use Rattle.cover_tours.specs.States.{taken, returned, Found, Ready, Walked, Begun, Touring, Visited, Done};

// Where the halves of all walks start, and how many walks there were after the first.
#[derive(Clone, Copy, Debug, PartialEq, Eq)]
pub struct Tour {
    pub start: usize,
    pub walks: usize,
}

// The other half of the same string or spoke.
fn other(c: usize) -> usize
    requires { c < 1048576 }
    ensures { result ≡ other' c }
{
    c + 1 - 2 * (c % 2)
}

// The vertex where half c starts.
fn near(work: &[u32], m: usize, c: usize) -> usize
    requires { Fits m work.now }
    ensures { result ≡ near' m (tables m work.now).verts c }
{
    if c < 2 * m {
        return work[c] as usize;
    }
    if c % 2 == 0 {
        return 2 * m;
    }
    c / 2 - m
}

// The first entry of the rows from `start` on that has an unused half at v, or is not of v's row.
fn seek(work: &[u32], m: usize, v: usize, start: usize) -> usize
    requires fits { Fits m work.now × (start ≤ 4 * m) }
    requires graph { Graph m (tables m work.now).verts (tables m work.now).rows }
    ensures { Sought m (tables m work.now) v start result }
{
    for e in start..4 * m {
        let c = work[5 * m + e] as usize;
        let x = near(work, m, c);
        if x != v {
            return e;
        }
        if work[2 * m + c / 2] == 0 {
            return e;
        }
    }
    4 * m
}

// The unused half at v where a search stopped at entry e, or v's own spoke, or 6m where there is none.
fn found_at(work: &[u32], m: usize, v: usize, e: usize) -> usize
    requires fits { Fits m work.now × (v ≤ 2 * m) }
    requires graph { Graph m (tables m work.now).verts (tables m work.now).rows }
    requires cursor { Cursor m (tables m work.now).rows (tables m work.now).used v (get_or (tables m work.now).cursors v 0) }
    requires sought { Sought m (tables m work.now) v (get_or (tables m work.now).cursors v 0) e }
    ensures { Answer m (tables m work.now) v result }
{
    if e < 4 * m {
        let c = work[5 * m + e] as usize;
        let x = near(work, m, c);
        if x == v {
            return c;
        }
    }
    if v < 2 * m {
        if work[3 * m + v] == 0 {
            return 2 * (m + v) + 1;
        }
    }
    6 * m
}

// An unused half at v, or 6m; v's cursor moves to where the search stopped.
fn find(work: &mut [u32], m: usize, v: usize) -> usize
    requires fits { Fits m work.old × (v ≤ 2 * m) }
    requires graph { Graph m (tables m work.old).verts (tables m work.old).rows }
    requires cursors { Cursors m (tables m work.old) }
    ensures { Found m (tables m work.old) (tables m work.new) v result }
{
    let at = 9 * m + v;
    let start = work[at] as usize;
    let e = seek(work, m, v, start);
    let r = found_at(work, m, v, e);
    work[at] = e as u32;
    r
}

// Takes half c as number n of the walk, and answers where the walk then stands.
fn take(work: &mut [u32], m: usize, n: usize, c: usize) -> usize
    requires { Fits m work.old × (n < 3 * m) × (c < 6 * m) }
    ensures written { tables m work.new ≡ taken (tables m work.old) n c }
    ensures come_to { result ≡ near' m (tables m work.old).verts (other' c) }
{
    let x = near(work, m, other(c));
    work[2 * m + c / 2] = 1;
    work[12 * m + n] = c as u32;
    x
}

// Gives number n of the walk back to entry z of the stack, and answers where the walk then stands.
fn give_back(work: &mut [u32], m: usize, n: usize, z: usize) -> usize
    requires { Fits m work.old × (n < 3 * m) × (z < 3 * m) }
    ensures written { tables m work.new ≡ returned (tables m work.old) n z }
    ensures come_to { result ≡ near' m (tables m work.old).verts (get_or (tables m work.old).stack n 0) }
{
    let g = work[12 * m + n];
    let x = near(work, m, g as usize);
    work[12 * m + z] = g;
    x
}

// A closed walk from s over what is unused. Its halves stand at the end of the stack before entry z, from the entry on that is the answer.
fn walk(work: &mut [u32], m: usize, s: usize, z: usize) -> usize
    requires fits { Fits m work.old × (s ≤ 2 * m) }
    requires ready { Ready m (tables m work.old) z }
    ensures { Walked m (tables m work.old) (tables m work.new) s z result }
{
    let mut n: usize = 0;
    let mut top = z;
    let mut here = s;
    loop {
        let c = find(work, m, here);
        if c < 6 * m {
            here = take(work, m, n, c);
            n += 1;
        } else {
            let closed = n == 0;
            if closed {
                return top;
            }
            n -= 1;
            top -= 1;
            here = give_back(work, m, n, top);
        }
    }
}

// Walks from string i, if it is still unused.
fn visit(work: &mut [u32], m: usize, i: usize, tour: Tour) -> Tour
    requires fits { Fits m work.old × (i < m) }
    requires walks_le_i { (tour.walks ≤ i) × Touring m (tables m work.old) tour.start tour.walks }
    ensures { (result.walks ≤ i + 1) × Visited m (tables m work.old) (tables m work.new) i result.start result.walks }
{
    if work[2 * m + i] != 0 {
        return tour;
    }
    let s = near(work, m, 2 * i);
    let top = tour.start;
    let start = walk(work, m, s, top);
    Tour {
        start,
        walks: tour.walks + 1,
    }
}

// All walks: one from the hub, which uses the spokes, and then one from each string that is still unused.
pub fn walk_all(work: &mut [u32], m: usize) -> Tour
    requires { Fits m work.old × Begun m (tables m work.old) }
    ensures { Done m (tables m work.old) (tables m work.new) result.start result.walks }
{
    let start = walk(work, m, 2 * m, 3 * m);
    let mut tour = Tour { start, walks: 0 };
    for i in 0..m {
        tour = visit(work, m, i, tour);
    }
    tour
}
