// What several rooms share: the definitions and laws of specs/ and proofs/, and what a refusal is.
#![tactic(auto)]

ghost use Rattle.std.specs.Prelude.{◌≡◌, ◌≤◌, ℕ};

// Why a call is turned away: the number that says so, and the field that it names, 0 where it names none.
pub trait Refusal {
    ghost number_is: { Self → ℕ };

    ghost field_is: { Self → ℕ };

    fn number(self) -> u8
        ensures { result ≡ number_is self };

    fn field(self) -> u8
        ensures { result ≡ field_is self };

    // 0 is the code of an answer, and no refusal's.
    ghost some: { (fault : Self) → 1 ≤ number_is fault };
}
