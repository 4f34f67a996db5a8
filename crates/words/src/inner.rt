// Codes of words of at most 31 letters, for callers that have judged their input.
ghost use Rattle.std.specs.Prelude.{true, map, ◌≡◌, ◌≤◌, ◌<◌, ◌^◌, length};
ghost use Rattle.lists.specs.Limits.{most_k};
ghost use Rattle.alphabet.specs.Letter.{two_bits};
ghost use Rattle.words.specs.Word.{code};
ghost use Rattle.words.specs.Turned.{turned_code, turns_four, rolled, rolled_turned};

// Four packed letters, each as two bits, and their reverse complement: AACC is 5 and turns to 175.
pub const TURNED: [u8; 256] = [
    255, 191, 127, 63, 239, 175, 111, 47, 223, 159, 95, 31, 207, 143, 79, 15, 251, 187, 123, 59,
    235, 171, 107, 43, 219, 155, 91, 27, 203, 139, 75, 11, 247, 183, 119, 55, 231, 167, 103, 39,
    215, 151, 87, 23, 199, 135, 71, 7, 243, 179, 115, 51, 227, 163, 99, 35, 211, 147, 83, 19, 195,
    131, 67, 3, 254, 190, 126, 62, 238, 174, 110, 46, 222, 158, 94, 30, 206, 142, 78, 14, 250, 186,
    122, 58, 234, 170, 106, 42, 218, 154, 90, 26, 202, 138, 74, 10, 246, 182, 118, 54, 230, 166,
    102, 38, 214, 150, 86, 22, 198, 134, 70, 6, 242, 178, 114, 50, 226, 162, 98, 34, 210, 146, 82,
    18, 194, 130, 66, 2, 253, 189, 125, 61, 237, 173, 109, 45, 221, 157, 93, 29, 205, 141, 77, 13,
    249, 185, 121, 57, 233, 169, 105, 41, 217, 153, 89, 25, 201, 137, 73, 9, 245, 181, 117, 53,
    229, 165, 101, 37, 213, 149, 85, 21, 197, 133, 69, 5, 241, 177, 113, 49, 225, 161, 97, 33, 209,
    145, 81, 17, 193, 129, 65, 1, 252, 188, 124, 60, 236, 172, 108, 44, 220, 156, 92, 28, 204, 140,
    76, 12, 248, 184, 120, 56, 232, 168, 104, 40, 216, 152, 88, 24, 200, 136, 72, 8, 244, 180, 116,
    52, 228, 164, 100, 36, 212, 148, 84, 20, 196, 132, 68, 4, 240, 176, 112, 48, 224, 160, 96, 32,
    208, 144, 80, 16, 192, 128, 64, 0,
];

// One entry of the table. The table is lent, since an index into a constant copies the whole of it.
pub fn looked_up(table: &[u8; 256], b: u8) -> u8
    requires { turns_four table.now ≡ true }
    ensures { result ≡ turned_code 4 b }
{
    table[b as usize]
}

// The code of a whole word.
pub fn word_code(word: &[u8]) -> u64
    requires { length word.now ≤ most_k }
    ensures { result ≡ code (map two_bits word.now) }
{
    let mut c: u64 = 0;
    for b in word {
        c = c * 4 + alphabet::letter_code(*b);
    }
    c
}

// The code of the reverse complement, four letters at a time and then one by one.
pub fn turned_code(k: usize, c: u64) -> u64
    requires { k ≤ most_k }
    ensures { result ≡ turned_code k c }
{
    let table = &TURNED;
    let mut rest = c;
    let mut turned: u64 = 0;
    for _ in 0..k / 4 {
        turned = turned * 256 + looked_up(table, (rest % 256) as u8) as u64;
        rest /= 256;
    }
    for _ in 0..k % 4 {
        turned = turned * 4 + (3 - rest % 4);
        rest /= 4;
    }
    turned
}

// The code of the word one letter further.
pub fn roll(k: usize, c: u64, x: u64) -> u64
    requires { (k ≤ most_k) × (c < 4 ^ most_k) × (x < 4) }
    ensures { result ≡ rolled k c x }
{
    (c * 4 + x) & ((1 << (2 * k)) - 1)
}

// The code of the turned word one letter further.
pub fn roll_turned(k: usize, c: u64, x: u64) -> u64
    requires { (1 ≤ k) × (k ≤ most_k) × (c < 4 ^ k) × (x < 4) }
    ensures { result ≡ rolled_turned k c x }
{
    ((3 - x) << (2 * (k - 1))) + c / 4
}

// How many words of p letters there are: their codes are the numbers below.
pub fn word_count(p: usize) -> usize
    requires { p ≤ 8 }
    ensures { result ≡ 4 ^ p }
{
    1 << (2 * p)
}
