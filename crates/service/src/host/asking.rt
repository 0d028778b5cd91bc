//! What the host asks of a service that runs.

ghost use Rattle.std.specs.Prelude.{◌≡◌, ◌↔◌, ℕ, Bool, List, Err, IfOk, codes, false};
ghost use Rattle.atomic_table.specs.Seated.{TableId};
ghost use Rattle.http_link.specs.declared.host_request.HostRequest.TheVariants as asked;

use crate::connection::door::Deserted;
use http_link::HostRequest;
use meters::MeterSeat;
use std::alloc::{AllocError, Global};

/// A service that runs, as its host asks it.
pub trait Hosted {
    /// That it told whether connections are let in; its metrics; the setup of all tenants as they stand; and the same once no
    /// thread serves connections any more.
    ghost admits: { Self → Bool → Type 0 };

    ghost measures: { Self → List ℕ → Type 0 };

    ghost presents: { Self → List ℕ → Type 0 };

    ghost presents_last: { Self → List ℕ → Type 0 };

    /// Which meters are read.
    ghost read: { Self → TableId };

    fn alloc(&self) -> Global;

    /// Whether a connection that comes is let in.
    fn lets_in(&self) -> bool
        ensures { admits self.now result };

    /// Its metrics, read through a seat of its meters. Fails only if it is out of memory.
    fn metrics(&self, seat: &mut MeterSeat) -> Result<Vec<u8>, AllocError>
        requires { seat.old.meters ≡ read self.now }
        ensures told { IfOk result (λ text. measures self.now text.items) }
        ensures same { seat.new ≡ seat.old };

    /// The present setup of all tenants. Fails only if it is out of memory.
    fn present(&self) -> Result<Vec<u8>, AllocError>
        ensures { IfOk result (λ text. presents self.now text.items) };

    /// Accepts no more connections, and waits until all requests that came are answered.
    fn stop(&self) -> Deserted;

    /// The setup of all tenants after the last thread has ended. Fails only if it is out of memory.
    fn present_last(&self, deserted: Deserted) -> Result<Vec<u8>, AllocError>
        ensures { IfOk result (λ text. presents_last self.now text.items) };
}

/// Why the host gets no answer to its question.
#[derive(Clone, Copy, Debug, PartialEq, Eq)]
pub enum Untold {
    /// Connections are not let in, and the question was about that alone.
    Closed,
    /// Out of memory.
    Memory,
}

impl From<AllocError> for Untold {
    ghost use Rattle.std.specs.Prelude.{◌≡◌};
    ghost use Rattle.service.specs.declared.host.asking.Untold.TheVariants.{Memory};

    ghost from_gives = { λ error told. told ≡ Memory };

    fn from(_: AllocError) -> Untold {
        Untold::Memory
    }
}

// Whether all is well: exactly where connections are let in.
fn health<S: Hosted>(service: &S) -> Result<Vec<u8>, Untold>
    ensures told { IfOk result (λ text. text.items ≡ codes "ok\n") }
    ensures closed { (lets_in : Bool) × S.admits service.now lets_in × ((result ≡ Err Untold.Closed) ↔ (lets_in ≡ false)) }
{
    if !service.lets_in() {
        return Err(Untold::Closed);
    }
    Ok(Vec::from_slice(service.alloc(), b"ok\n")?)
}

/// The answer to a request of the host. A stop is answered after the last thread has ended.
pub fn told_to_host<S: Hosted>(
    service: &S,
    seat: &mut MeterSeat,
    request: HostRequest,
) -> Result<Vec<u8>, Untold>
    requires { seat.old.meters ≡ S.read service.now }
    ensures health { request ≡ asked.Health → (lets_in : Bool) × S.admits service.now lets_in
        × ((result ≡ Err Untold.Closed) ↔ (lets_in ≡ false)) }
    ensures well { request ≡ asked.Health → IfOk result (λ text. text.items ≡ codes "ok\n") }
    ensures metrics { request ≡ asked.Metrics → IfOk result (λ text. S.measures service.now text.items) }
    ensures setup { request ≡ asked.Setup → IfOk result (λ text. S.presents service.now text.items) }
    ensures stop { request ≡ asked.Stop → IfOk result (λ text. S.presents_last service.now text.items) }
    ensures closed { result ≡ Err Untold.Closed → request ≡ asked.Health }
    ensures same { seat.new ≡ seat.old }
{
    match request {
        HostRequest::Health => health(service),
        HostRequest::Metrics => Ok(service.metrics(seat)?),
        HostRequest::Setup => Ok(service.present()?),
        HostRequest::Stop => {
            let deserted = service.stop();
            Ok(service.present_last(deserted)?)
        }
    }
}
