//! Laws of the definitions, each the contract of a function that does nothing.

ghost use Rattle.std.specs.Prelude.{ℕ, List, Bool, Option, ◌++◌};
ghost use Rattle.http_link.specs.declared.request.RequestKind.{RequestKind};
ghost use Rattle.http_link.specs.Connections.{AreAskedBy};
ghost use Rattle.http_link.specs.Serving.{Asked};

/// The questions of a connection stay the same if more bytes come: those are left too.
pub fn more_may_come()
    ensures { (tenant_of : RequestKind → List ℕ → Option ℕ) (bytes more : List ℕ) (questions : List Asked) (left : List ℕ) (last : Bool)
        → AreAskedBy tenant_of bytes questions left last → AreAskedBy tenant_of (bytes ++ more) questions (left ++ more) last }
{}
