//! Small parts of a line, gathered so that a sink is called once.

ghost use Rattle.std.specs.Prelude.{◌≡◌, ◌+◌, ◌≤◌, ◌++◌, length};

use arrayvec::ArrayVec;

/// Adds a piece for which there is room.
pub fn add_piece<const N: usize>(gathered: &mut ArrayVec<u8, N>, piece: &[u8])
    requires { length gathered.old.items + length piece.now ≤ N }
    ensures { gathered.new.items ≡ gathered.old.items ++ piece.now }
{
    for byte in piece {
        gathered.push(*byte);
    }
}
