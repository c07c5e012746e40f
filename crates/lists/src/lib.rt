// List theory: specs/ has the definitions, proofs/ their laws. Of code only what every layer may ask: a test counted.
#![tactic(auto)]

ghost use Rattle.std.specs.Prelude.{◌≡◌, ◌≤◌};
ghost use Rattle.lists.specs.Tests.{one_if};

// 1 where the test holds, else 0.
pub fn one_if(test: bool) -> usize
    ensures { (result ≡ one_if test) × (result ≤ 1) }
{
    if test { 1 } else { 0 }
}
