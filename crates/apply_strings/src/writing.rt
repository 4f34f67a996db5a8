// One string written where it is to stand: its letters, or a column of its weights, as they are or turned.
ghost use Rattle.std.specs.Prelude.{◌≡◌, reverse, ◌+◌, ◌≤◌, length, true};
ghost use Rattle.lists.specs.Every.{every};
ghost use Rattle.lists.specs.Fill.{fill, put};
ghost use Rattle.alphabet.specs.Letter.{is_letter};
ghost use Rattle.apply_strings.specs.Turned.{turn_letters, letters_by, column_by};

// The last letter's pair first.
fn turn_letters(from: &[u8], to: &mut [u8])
    requires { (length from.now ≤ length to.old) × (every is_letter from.now ≡ true) }
    ensures { to.new ≡ fill (turn_letters from.now) to.old }
{
    for (i, letter) in from.iter().rev().enumerate() {
        to[i] = alphabet::turned_letter(*letter);
    }
}

// The last weight first.
fn turn_column(from: &[u32], to: &mut [u32])
    requires { length from.now ≤ length to.old }
    ensures { to.new ≡ fill (reverse from.now) to.old }
{
    for (i, weight) in from.iter().rev().enumerate() {
        to[i] = *weight;
    }
}

// The letters of a string stand from `at` on: the part of the new letters that starts there is lent.
pub(crate) fn write_letters(turned: bool, from: &[u8], to: &mut [u8], at: usize)
    requires { (at + length from.now ≤ length to.old) × (every is_letter from.now ≡ true) }
    ensures { to.new ≡ put at (letters_by turned from.now) to.old }
{
    if turned {
        turn_letters(from, &mut to[at..]);
    } else {
        lists::inner::copy_first(from, &mut to[at..]);
    }
}

// A column of the weights of a string stands from `at` on.
pub(crate) fn write_column(turned: bool, from: &[u32], to: &mut [u32], at: usize)
    requires { at + length from.now ≤ length to.old }
    ensures { to.new ≡ put at (column_by turned from.now) to.old }
{
    if turned {
        turn_column(from, &mut to[at..]);
    } else {
        lists::inner::copy_first(from, &mut to[at..]);
    }
}
