//! Laws of orders, each the contract of a function that does nothing.

ghost use Rattle.std.specs.Prelude.{List, ℕ};
ghost use Rattle.joint_order.specs.Orders.{AreDistinct, IsStuck, TakesEveryPoint};
ghost use Rattle.joint_order.specs.declared.point.ListPoint.{ListPoint};

/// If a front is stuck, no order takes all points, provided that no point occurs twice.
pub fn no_order_behind_a_stuck_front()
    ensures { (lists : List (List ListPoint)) (front : ℕ → ℕ) (order : List ℕ)
        → AreDistinct lists → IsStuck lists front → TakesEveryPoint lists order → ⊥ }
{}
