// The foremost of some seats.
ghost use Rattle.std.specs.Prelude.{◌≡◌, ℕ, ◌<◌, Bool, true, MatchOption, IfSome};
ghost use Rattle.seats.specs.Sets.{In};
ghost use Rattle.steps.specs.Chosen.{Foremost, beats_best};
ghost use Rattle.steps.specs.Choices.{Decides, Compares, Orders, Among};

use seats::members_of;

// Of those seats that may be chosen the one that goes before every other; of two that tie, the lower seat. `may` says which may be
// chosen, and `better` whether the first seat given goes before the second, whatever tests of seats the two decide.
pub fn foremost<M: Fn(u8) -> bool, B: Fn(u8, u8) -> bool>(
    seats: u64,
    may: M,
    better: B,
) -> Option<u8>
    requires may { M.IsAlwaysCallable may }
    requires better { B.IsAlwaysCallable better }
    ensures { (test : ℕ → Bool) (before : ℕ → ℕ → Bool) → Decides (M.post may) test → Compares (B.post better) before → Orders before (Among seats test) → MatchOption result ((i : ℕ) → In i seats → test i ≡ true → ⊥) (Foremost before (Among seats test)) }
{
    let mut best = None;
    for i in members_of(seats) {
        if may(i) && beats(&better, i, best) {
            best = Some(i);
        }
    }
    best
}

// Whether seat i goes before the best so far; before none it does.
fn beats<B: Fn(u8, u8) -> bool>(better: &B, i: u8, best: Option<u8>) -> bool
    requires { B.IsAlwaysCallable better.now }
    ensures { (before : ℕ → ℕ → Bool) → Compares (B.post better.now) before → i < 64 → IfSome best (λ b. b < 64) → result ≡ beats_best (before i) best }
{
    best.is_none_or(|b| better(i, b))
}
