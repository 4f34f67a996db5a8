// The stages of laying out the work table for m strings: each writes its own regions of it, which `lay_out` lends. The weights stand where the walks' stack
// will be until the vertices are named, and the sort's buffer is where the cursors will be.
ghost use Rattle.std.specs.Prelude.{◌≡◌, ◌+◌, ◌*◌, ◌^◌, ◌≤◌, ◌<◌, eqb, length};
ghost use Rattle.lists.specs.Choose.{choose};
ghost use Rattle.lists.specs.Count.{count_from};
ghost use Rattle.lists.specs.Every.{All};
ghost use Rattle.lists.specs.Limits.{most_strings};
ghost use Rattle.lists.specs.Pick.{sort_by};
ghost use Rattle.collection.specs.Ready.{Strung};
ghost use Rattle.sorting.specs.Keys.{key_at};
ghost use Rattle.cover_trails.specs.Strings.{weights as all_end_weights};
ghost use Rattle.cover_tours.specs.Layout.{Fits};
ghost use Rattle.cover_vertices.specs.Ladder.{ladder};
ghost use Rattle.cover_vertices.specs.Promises.{ends_from, Rising, Named, Marked, LaidOut};

// Writes numbers at equal steps.
fn write_ladder(entries: &mut [u32], first: u32, step: u32)
    requires { first + length entries.old * step < 2 ^ 32 }
    ensures { entries.new ≡ ladder first step (length entries.old) }
{
    let mut x = first;
    for entry in entries.iter_mut() {
        *entry = x;
        x += step;
    }
}

// Writes the end weights of all strings, two of each.
fn write_weights(k: usize, ends: &[u32], weights: &[u32], keys: &mut [u32])
    requires { Strung k ends.now weights.now × (length keys.old ≡ 2 * length ends.now) }
    ensures { keys.new ≡ all_end_weights (ends_from k 0 ends.now weights.now) }
{
    let mut before: usize = 0;
    let mut passed: usize = 0;
    for (i, end) in ends.iter().enumerate() {
        let e = *end as usize;
        let n = e + 1 - (before + k);
        keys[2 * i] = weights[passed];
        passed += n;
        keys[2 * i + 1] = weights[passed - 1];
        before = e;
    }
}

// The end weights, and their numbers in the order of the weights.
fn order_ends(
    k: usize,
    ends: &[u32],
    weights: &[u32],
    keys: &mut [u32],
    order: &mut [u32],
    buf: &mut [u32],
)
    requires strung { Strung k ends.now weights.now × (length ends.now ≤ most_strings) }
    requires sizes { (length keys.old ≡ 2 * length ends.now) × (length order.old ≡ 2 * length ends.now) × (length buf.old ≡ 2 * length ends.now) }
    ensures keys { keys.new ≡ all_end_weights (ends_from k 0 ends.now weights.now) }
    ensures order { order.new ≡ sort_by (key_at keys.new) (count_from 0 (2 * length ends.now)) }
{
    write_weights(k, ends, weights, keys);
    sorting::inner::number_ids(order);
    sorting::inner::sort_by_weight(keys, order, buf);
}

// The vertex of place q, whose weight is x: that of the place before, v, if the weight there is the same.
fn vertex_of(x: u32, before: u32, v: usize, q: usize) -> usize
    ensures { result ≡ choose (eqb x before) v q }
{
    if x == before {
        return v;
    }
    q
}

// Gives each end its vertex: the first place in the order with its weight.
fn name_vertices(keys: &[u32], order: &[u32], verts: &mut [u32])
    requires sizes { (length keys.now ≡ length verts.old) × (length order.now ≡ length verts.old) × (length verts.old < 2 ^ 32) }
    requires rising { Rising (length verts.old) keys.now order.now }
    ensures { Named keys.now order.now verts.new }
{
    let mut v: usize = 0;
    let mut before: u32 = 0;
    for (q, end) in order.iter().enumerate() {
        let c = *end as usize;
        let x = keys[c];
        v = vertex_of(x, before, v, q);
        before = x;
        verts[c] = v as u32;
    }
}

// The hub's row, all cursors, and the flags: strings unused, spokes used.
fn blank(strings: &mut [u32], spokes: &mut [u32], hub: &mut [u32], cursors: &mut [u32])
    requires few { length strings.old ≤ most_strings }
    requires sizes { (length spokes.old ≡ 2 * length strings.old) × (length hub.old ≡ 2 * length strings.old) × (length cursors.old ≡ 3 * length strings.old) }
    ensures strings { strings.new ≡ ladder 0 0 (length strings.old) }
    ensures spokes { spokes.new ≡ ladder 1 0 (2 * length strings.old) }
    ensures hub { hub.new ≡ ladder (2 * length strings.old) 2 (2 * length strings.old) }
    ensures cursors { cursors.new ≡ ladder 0 1 (3 * length strings.old) }
{
    write_ladder(hub, (2 * strings.len()) as u32, 2);
    write_ladder(cursors, 0, 1);
    strings.fill(0);
    spokes.fill(1);
}

// Turns the flag of a vertex's spoke for each end at it, so that the spokes to odd vertices are unused.
#[tactic(auto, using(crate::proofs::Marking::marking_start, crate::proofs::Marking::marking_on, crate::proofs::Marking::marking_end, lists::proofs::Every::all_at))]
fn mark_odd(verts: &[u32], spokes: &mut [u32])
    requires all { All (λ x. x < length spokes.old) verts.now }
    requires used { spokes.old ≡ ladder 1 0 (length spokes.old) }
    ensures { Marked verts.now spokes.new }
{
    for vert in verts {
        let v = *vert as usize;
        spokes[v] = 1 - spokes[v];
    }
}

// Lays out the table for the walks.
pub fn lay_out(k: usize, ends: &[u32], weights: &[u32], work: &mut [u32])
    requires { Strung k ends.now weights.now × Fits (length ends.now) work.old }
    ensures { LaidOut k (length ends.now) ends.now weights.now work.new }
{
    let m = ends.len();
    let (verts, rest) = work.split_at_mut(2 * m);
    let (used, rest) = rest.split_at_mut(3 * m);
    let (rows, rest) = rest.split_at_mut(4 * m);
    let (cursors, stack) = rest.split_at_mut(3 * m);
    let (strings, spokes) = used.split_at_mut(m);
    let (order, hub) = rows.split_at_mut(2 * m);
    let keys = &mut stack[..2 * m];
    order_ends(k, ends, weights, keys, order, &mut cursors[..2 * m]);
    name_vertices(keys, order, verts);
    blank(strings, spokes, hub, cursors);
    mark_odd(verts, spokes);
}
