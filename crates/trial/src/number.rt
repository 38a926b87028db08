// Refusals as document 01 numbers them; 0 stands for none.
ghost use Rattle.std.specs.Prelude.{◌≡◌, MatchResult};
ghost use Rattle.arena.specs.Refusals.{number_of};

use arena::Refusal;

// As an answer is said in C, which `host` does by `From`; here the offset is not asked for.
pub fn number_or_0<T: Copy>(answer: Result<T, Refusal>) -> usize
    ensures { MatchResult answer (λ _. result ≡ 0) (λ r. result ≡ number_of r) }
{
    match answer {
        Ok(_) => 0,
        Err(r) => r.number(),
    }
}
