// Copying, for callers that have the room.
ghost use Rattle.std.specs.Prelude.{◌≡◌, ◌≤◌, length};
ghost use Rattle.lists.specs.Fill.{fill};

// Copies a list into the first entries of a table. A loop, and not `copy_from_slice`: that calls the C library, which the archive for hosts is to need for
// nothing but clearing a table.
pub fn copy_first<T: Copy>(from: &[T], to: &mut [T])
    requires { length from.now ≤ length to.old }
    ensures { to.new ≡ fill from.now to.old }
{
    for (i, x) in from.iter().enumerate() {
        to[i] = *x;
    }
}
