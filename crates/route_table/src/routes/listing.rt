//! All routes, one after the other.

ghost use Rattle.std.specs.Prelude.{◌≡◌, ◌≤◌, IfOk, map, length};
ghost use Rattle.std.specs.FinMap.{from_entries};
ghost use Rattle.std.specs.List.{IsDistinct};
ghost use Rattle.std.specs.Str.{bytes_eq};
ghost use Rattle.route_table.specs.Listing.{entry_of};
ghost use Rattle.route_table.specs.Routes.{max_routes};

use super::Routes;
use crate::route::Route;
use std::alloc::{AllocError, Global};

impl Routes {
    /// Each route once, in the order of their segments: a route comes right before those below its prefix. Fails
    /// only if it is out of memory.
    pub fn list(&self, alloc: Global) -> Result<Vec<Route>, AllocError>
        ensures all { IfOk result (λ routes. from_entries (map entry_of routes.items) ≡ self.now) }
        ensures once { IfOk result (λ routes. IsDistinct bytes_eq (map (λ r. r.prefix) routes.items)) }
        ensures few { IfOk result (λ routes. length routes.items ≤ max_routes) }
    {
        let mut routes = Vec::with_capacity(alloc, self.count)?;
        self.root.list(alloc, None, &mut routes)?;
        Ok(routes)
    }
}
