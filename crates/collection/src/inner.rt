// For callers that have judged their input.
ghost use Rattle.std.specs.Prelude.{◌≡◌, ◌≤◌, ◌*◌, length, replicate};
ghost use Rattle.lists.specs.Fill.{fill};
ghost use Rattle.collection.specs.Judge.{kmer_count};

// How many k-mers there are.
pub fn kmer_count(k: usize, letters: usize, strings: usize) -> usize
    requires k_bound { strings * k ≤ letters }
    requires le_k { 1 ≤ k }
    ensures { result ≡ kmer_count k letters strings }
{
    letters - strings * (k - 1)
}

// The first n entries become zero.
pub fn zero_first(work: &mut [u32], n: usize)
    requires { n ≤ length work.old }
    ensures { work.new ≡ fill (replicate n 0) work.old }
{
    work[..n].fill(0);
}
