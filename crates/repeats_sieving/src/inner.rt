// The sieve, by counters of two bits, sixteen to an entry. The code of id x is entry x of `hi`, its upper half, and of `lo`, its lower half.
ghost use Rattle.std.specs.Prelude.{◌≡◌, ℕ, ◌+◌, ◌*◌, ◌/◌, ◌^◌, ◌≤◌, ◌<◌, length, replicate, take};
ghost use Rattle.lists.specs.Count.{count_from};
ghost use Rattle.sorting.specs.Keys.{code_at};
ghost use Rattle.repeats_sieving.specs.Kept.{Sieved};
ghost use Rattle.repeats_sieving.specs.Slots.{two_bits, bit_of, slot_of, slot_at, Told, Grown, Sifting, Kept};

// The slot of a code. Neither product nor sum passes 64 bits.
fn slot(hi: u32, lo: u32, slots: usize, a: u64, c: u64) -> usize
    requires { (slots ≤ 2 ^ 32) × (a < 2 ^ 31) × (c < 2 ^ 31) }
    ensures { result ≡ slot_of slots a c hi lo }
{
    let x = lo as u64 * a + hi as u64 * c;
    let h = x / 65536 % 4294967296;
    (h * (slots as u64) / 4294967296) as usize
}

// The entry v with the counter of slot s counted up, to 2.
fn count_up(v: u32, s: usize) -> u32
    ensures { Grown v (bit_of s) result }
{
    let e = 2 * (s % 16) as u32;
    if (v >> e) % 4 >= 2 {
        return v;
    }
    v + (1 << e)
}

// Whether the counter of slot s in its entry v is 2: 1, else 0.
fn full(v: u32, s: usize) -> usize
    ensures { result ≡ two_bits v (bit_of s) / 2 }
{
    let e = 2 * (s % 16) as u32;
    ((v >> e) % 4 / 2) as usize
}

// The slot of id x.
fn slot_of(hi: &[u32], lo: &[u32], x: usize, slots: usize, a: u64, c: u64) -> usize
    requires x_inside { (x < length hi.now) × (length lo.now ≡ length hi.now) }
    requires slots_bound { (slots ≤ 2 ^ 32) × (a < 2 ^ 31) × (c < 2 ^ 31) }
    ensures { result ≡ slot_at hi.now lo.now slots a c x }
{
    slot(hi[x], lo[x], slots, a, c)
}

// Counts the ids of each slot, up to 2, by counters that are 0.
fn tell(hi: &[u32], lo: &[u32], ids: &[u32], table: &mut [u32], a: u64, c: u64)
    requires sifting { Sifting hi.now lo.now ids.now (length table.old) a c }
    requires zero { table.old ≡ replicate (length table.old) 0 }
    ensures { Told (slot_at hi.now lo.now (16 * length table.old) a c) (16 * length table.old) ids.now table.new }
{
    let slots = 16 * table.len();
    for id in ids {
        let s = slot_of(hi, lo, *id as usize, slots, a, c);
        let t = s / 16;
        table[t] = count_up(table[t], s);
    }
}

// Keeps, in front and in their order, the ids whose slot was told twice; how many they are.
fn keep(hi: &[u32], lo: &[u32], ids: &mut [u32], table: &[u32], a: u64, c: u64) -> usize
    requires sifting { Sifting hi.now lo.now ids.old (length table.now) a c }
    requires told { Told (slot_at hi.now lo.now (16 * length table.now) a c) (16 * length table.now) ids.old table.now }
    ensures { Kept (slot_at hi.now lo.now (16 * length table.now) a c) ids.old ids.new result }
{
    let slots = 16 * table.len();
    let mut o = 0;
    for i in 0..ids.len() {
        let x = ids[i];
        let s = slot_of(hi, lo, x as usize, slots, a, c);
        let q = full(table[s / 16], s);
        ids[o] = x;
        o += q;
    }
    o
}

// Of the ids those stay, in front and in their order, whose slot another of them has; how many they are. `table` is for counters, and what it held is lost.
pub fn sift(hi: &[u32], lo: &[u32], ids: &mut [u32], table: &mut [u32], a: u64, c: u64) -> usize
    requires { Sifting hi.now lo.now ids.old (length table.old) a c }
    ensures { Kept (slot_at hi.now lo.now (16 * length table.old) a c) ids.old ids.new result }
{
    table.fill(0);
    tell(hi, lo, ids, table, a, c);
    keep(hi, lo, ids, table, a, c)
}

// Two sieves over all n ids, with four slots an id and other constants the second time; how many ids are left, in front. Where the first leaves most, the
// second would drop few. `buf` is for counters.
pub fn sieve(hi: &[u32], lo: &[u32], ids: &mut [u32], buf: &mut [u32]) -> usize
    requires sizes { (length hi.now < 2 ^ 24) × (length lo.now ≡ length hi.now) × (length buf.old ≡ length hi.now) }
    requires numbered { ids.old ≡ count_from 0 (length hi.now) }
    ensures few { result ≤ length hi.now }
    ensures sieved { Sieved (code_at hi.now lo.now) (length hi.now) (take result ids.new) }
{
    let n = hi.len();
    let table = &mut buf[..(n + 3) / 4];
    let m = sift(hi, lo, ids, table, 0x5e3779b1, 0x45ebca77);
    if m > n / 2 {
        return m;
    }
    sift(hi, lo, &mut ids[..m], table, 0x42b2ae3d, 0x27d4eb2f)
}
