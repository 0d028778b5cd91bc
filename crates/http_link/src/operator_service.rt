//! What answers operators.

ghost use Rattle.std.specs.Prelude.{◌≡◌, List, Option, ℕ};
ghost use Rattle.http_link.specs.OperatorDoor.{OperatorAsked, OperatorWanted as Wanted, operator_asking, operator_wanted_at};

use crate::operator_request::OperatorWanted;

/// What answers operators, each of whom asks of its own tenant, at a door of their own.
pub trait OperatorService {
    /// What one question makes of a service: the service before, the question with the status that it was given, and
    /// the service after.
    ghost asks: { Self → OperatorAsked → Self → Type 0 };

    /// The bytes of the last answer of status 200 or 400.
    ghost answer: { Self → List ℕ };

    /// The status that turns a request away by its head, if there is one.
    ghost refusal: { Self → Wanted → Option ℕ };

    /// The status that turns a request away by its head, before its body is read: 401 or 404. Another one is written as it is.
    fn refuses(&self, wanted: &OperatorWanted<'_>) -> Option<u16>
        ensures { result ≡ refusal self.now (operator_wanted_at wanted.now) };

    /// Takes a request that it does not turn away, whose body is the text of a command or empty, and gives the status of its answer: 200, 400, 401, 404 or
    /// 503. Any other is written as 503.
    fn operator(&mut self, wanted: &OperatorWanted<'_>, body: &[u8]) -> u16
        ensures { asks self.old (operator_asking (operator_wanted_at wanted.now) body.now result) self.new };

    /// The bytes of the last answer of status 200, or the line that says why it was 400.
    fn body(&self) -> &[u8]
        ensures { result.now ≡ answer self.now };
}
