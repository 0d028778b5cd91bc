//! Laws of the definitions, each the contract of a function that does nothing.

ghost use Rattle.std.specs.Prelude.{◌≡◌, ℕ};
ghost use Rattle.money_core.specs.Fraction.{Fraction};
ghost use Rattle.money_core.specs.Price.{IsPrice, IsGreatestAmount, price_of};

/// A fraction gives each amount one price, and each pair of bounds one greatest amount.
pub fn one_price()
    ensures price { (f : Fraction) (amount q : ℕ) → IsPrice f amount q → q ≡ price_of f amount }
    ensures greatest { (f : Fraction) (limit max a b : ℕ)
        → IsGreatestAmount f limit max a → IsGreatestAmount f limit max b → a ≡ b }
{}
