//! What answers the host.

ghost use Rattle.std.specs.Prelude.{◌≡◌, List, ℕ};
ghost use Rattle.http_link.specs.HostDoor.{HostAsked};

use crate::host_request::HostRequest;

/// What answers the host, who runs the process, at a door of its own.
pub trait HostService {
    /// What one question makes of a service: the service before, the question with the status that it was given, and
    /// the service after.
    ghost asks: { Self → HostAsked → Self → Type 0 };

    /// The bytes of the last answer of status 200.
    ghost answer: { Self → List ℕ };

    /// Takes a request with the token that was shown, and gives the status of its answer: 200, 401 or 503. Any other is
    /// written as 503. For `Health` no token is looked at, and it is empty.
    fn host(&mut self, request: HostRequest, token: &[u8]) -> u16
        ensures { asks self.old (record { request = request; token = token.now; status = result }) self.new };

    /// The bytes of the last answer of status 200.
    fn body(&self) -> &[u8]
        ensures { result.now ≡ answer self.now };
}
