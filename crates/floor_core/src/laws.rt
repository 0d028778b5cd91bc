//! Laws of the definitions, each the contract of a function that does nothing.

ghost use Rattle.std.specs.Prelude.{◌≡◌, ◌<◌, ◌++◌, ℕ, List, All, length, slice_get};
ghost use Rattle.tenant_core.specs.State.{State};
ghost use Rattle.tenant_core.specs.declared.opening.Opening.{Opening};
ghost use Rattle.floor_core.specs.Causes.{AreCaused, ArePlaced, AreRun, Entered, book_opened};
ghost use Rattle.floor_core.specs.Forwards.{AreForwards, AreTaken, HasBytes};
ghost use Rattle.floor_core.specs.World.{World, FitsIn, owners, own_steps, seen_by, AreOutputs, IsLeft};
ghost use Rattle.floor_core.specs.Worlds.{replies, after_all};
ghost use Rattle.floor_core.specs.declared.step.Step.{Step};
ghost use Rattle.floor_core.specs.declared.step.Output.{Output};

/// What each tenant sees and what is nobody's leave no choice: in a world, a list of steps has one list of outputs.
pub fn one_list_of_outputs()
    ensures { (world : World) (steps : List Step) (xs ys : List Output)
        → AreOutputs world steps xs → AreOutputs world steps ys → xs ≡ ys }
{}

/// A list of steps has outputs in every world, and leaves a world.
pub fn outputs_are_there()
    ensures outputs { (world : World) (steps : List Step) → AreOutputs world steps (replies world steps) }
    ensures left { (world : World) (steps : List Step)
        → IsLeft world steps (replies world steps) (after_all world steps) }
{}

/// Steps may be done in two parts. The outputs of the first list, and then those of the second in the world that the
/// first leaves, are those of both lists as one. Both ways leave the same world.
pub fn one_after_the_other()
    ensures outputs { (world between : World) (steps more : List Step) (xs ys : List Output)
        → AreOutputs world steps xs → IsLeft world steps xs between → AreOutputs between more ys
        → AreOutputs world (steps ++ more) (xs ++ ys) }
    ensures left { (world between last : World) (steps more : List Step) (xs ys : List Output)
        → AreOutputs world steps xs → IsLeft world steps xs between → AreOutputs between more ys
        → IsLeft between more ys last → IsLeft world (steps ++ more) (xs ++ ys) last }
{}

/// In every world, each frame that steps send on came at the last good load of its worker, or the worker had it in
/// hand at first. It has 8 other bytes for its amount and 17 others for its expiry. (RFC 0027, "ILP Prepare")
pub fn frames_that_go_on()
    ensures { (world : World) (frames : ℕ → List ℕ) (workers tenants : ℕ) (steps : List Step) (outputs : List Output)
        → AreTaken tenants world frames → All (FitsIn workers tenants) steps → All HasBytes steps
        → AreOutputs world steps outputs → AreForwards frames steps outputs }
{
    tenant_core::laws::calls();
    ilp_view::laws::what_is_read_is_a_prepare();
    ilp_view::laws::forwards_change_two_fields();
}

/// Two worlds have any other tenants and any numbers of workers, and one tenant is alike in both. Of two lists of
/// steps, that tenant's own steps are alike. Then the tenant sees the same in both, and is alike afterwards.
pub fn two_worlds()
    ensures seen { (t : ℕ) (v w : World) (xs ys : List Step) (os ps : List Output) → v.tenants t ≡ w.tenants t
        → AreOutputs v xs os → AreOutputs w ys ps
        → own_steps t (owners v.hands xs os) ≡ own_steps t (owners w.hands ys ps)
        → seen_by t (owners v.hands xs os) os ≡ seen_by t (owners w.hands ys ps) ps }
    ensures left { (t : ℕ) (v w : World) (xs ys : List Step) (os ps : List Output) (x y : World)
        → v.tenants t ≡ w.tenants t → IsLeft v xs os x → IsLeft w ys ps y
        → own_steps t (owners v.hands xs os) ≡ own_steps t (owners w.hands ys ps)
        → x.tenants t ≡ y.tenants t }
{}

/// Take records of many tenants in one order, where a cause made each record in its tenant's book as the records
/// before it left the book. They are the records of a run of some number of workers, which may be more than a floor has. Its
/// steps start from the tenants' openings, make just these records in this order, and leave the books that the records
/// leave.
///
/// Each tenant sees in this run what the one-tenant connector says to the tenant's own steps alone. Each frame that
/// goes on is the one that came, with 8 other bytes for its amount and 17 others for its expiry, as in `Floor::run`.
pub fn records_are_a_run()
    ensures { (openings : List Opening) (entries : List Entered) (left : ℕ → State)
        → ArePlaced openings → All (λ e. e.tenant < length openings) entries
        → AreCaused (λ t. book_opened (slice_get openings t)) entries left → AreRun openings entries left }
{
    tenant_core::laws::open_holds();
    tenant_core::laws::calls();
    frames_that_go_on();
}
