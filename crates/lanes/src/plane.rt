// A plane is a set of numbers in words of 64: g is lane g % 64 of word g / 64.
ghost use Rattle.std.specs.Prelude.{◌*◌, ◌<◌, length};
ghost use Rattle.sets.specs.Decides.{Decides};
ghost use Rattle.lanes.specs.Planes.{◌in_plane◌};

use sets::Set;

// Is g in the plane?
pub fn holds(plane: &[u64], g: usize) -> bool
    requires { g < 64 * length plane.now }
    ensures { Decides (g in_plane plane.now) result }
{
    plane[g / 64].has((g % 64) as u64)
}
