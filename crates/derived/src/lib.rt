// What the derived book is: definitions and laws, and the loop that writes one part of it for each event. The functions that write the parts stand in the crates above.
#![tactic(auto)]

ghost use Rattle.std.specs.Prelude.{ℕ, List};
ghost use Rattle.general.specs.Lists.{flat};
ghost use Rattle.general.specs.Writing.{Fits, Wrote};
ghost use Rattle.derived.specs.Putting.{Ready, Puts};

// The parts of the numbers below n, one behind another: each call writes one, and hands back the place behind it.
pub fn put_parts<F: Fn(&mut [u8], usize, usize) -> usize>(
    room: &mut [u8],
    at: usize,
    n: usize,
    put: F,
) -> usize
    requires { (parts : ℕ → List ℕ) × Ready n parts (F.pre put) × Puts n parts (F.post put) × Fits room.old at (flat n parts) }
    ensures { (parts : ℕ → List ℕ) → Puts n parts (F.post put) → Fits room.old at (flat n parts) → Wrote room.old at (flat n parts) result room.new }
{
    let mut next = at;
    for k in 0..n {
        next = put(room, next, k);
    }
    next
}
