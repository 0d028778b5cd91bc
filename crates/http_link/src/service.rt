//! What answers requests.

ghost use Rattle.std.specs.Prelude.{◌≡◌, List, ℕ, Option};
ghost use Rattle.http_link.specs.Serving.{Asked};

use crate::request::RequestKind;

/// What answers the requests of a connection: tenants by name, packets and commands.
pub trait Service {
    ghost use Rattle.http_link.specs.declared.request.RequestKind.{RequestKind};

    /// What one question does: the service before, the question with the status of its answer, and the service
    /// after.
    ghost asks: { Self → Asked → Self → Type 0 };

    /// The tenant of a name that takes requests of a kind.
    ghost tenant_of: { Self → RequestKind → List ℕ → Option ℕ };

    /// The bytes of the last answer of status 200.
    ghost answer: { Self → List ℕ };

    /// The number of the tenant of that name, which takes packets.
    fn tenant(&self, name: &[u8]) -> Option<usize>
        ensures { result ≡ tenant_of self.now RequestKind.Ilp name.now };

    /// The number of the tenant of that name, if it takes commands here.
    fn commanded_tenant(&self, name: &[u8]) -> Option<usize>
        ensures { result ≡ tenant_of self.now RequestKind.Admin name.now };

    /// Takes a packet that came with a token for a tenant, and returns the status of its answer: 200, 400, 401 or
    /// 503. Any other is written as 503.
    fn ilp(&mut self, tenant: usize, token: &[u8], body: &[u8]) -> u16
        ensures { asks self.old
            (record { kind = RequestKind.Ilp; tenant = tenant; token = token.now; body = body.now; status = result })
            self.new };

    /// Takes a command that came with a token for a tenant, and returns the status of its answer, as `ilp` does.
    fn admin(&mut self, tenant: usize, token: &[u8], body: &[u8]) -> u16
        ensures { asks self.old
            (record { kind = RequestKind.Admin; tenant = tenant; token = token.now; body = body.now; status = result })
            self.new };

    /// The bytes of the last answer of status 200.
    fn body(&self) -> &[u8]
        ensures { result.now ≡ answer self.now };
}
