// The types of the open levels.
ghost use Rattle.std.specs.Prelude.{◌≡◌, ◌≤◌, take};
ghost use Rattle.sdtd.specs.Limits.{most_levels};
ghost use Rattle.expected.specs.Expected.{padded};

use reading::LEVELS;

// The first `depth` types, then 0: the levels past the depth hold those of elements that are closed.
pub(crate) fn open_types(types: &[u8; LEVELS], depth: usize) -> [u8; LEVELS]
    requires { depth ≤ most_levels }
    ensures { result ≡ padded most_levels 0 (take depth types.now) }
{
    let mut kept = [0; LEVELS];
    kept[..depth].copy_from_slice(&types[..depth]);
    kept
}
