// Words of lent memory cleared; its specs have ways over links and what is within reach.
#![tactic(auto)]

ghost use Rattle.std.specs.Prelude.{◌≡◌, ◌≤◌, ◌++◌, length, drop, replicate};

// The first n words made 0.
pub fn clear(rows: &mut [u64], n: usize)
    requires { n ≤ length rows.old }
    ensures { rows.new ≡ replicate n 0 ++ drop n rows.old }
{
    rows[..n].fill(0);
}
