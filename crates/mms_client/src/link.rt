//! What goes over a link.

ghost use Rattle.std.specs.Prelude.{◌≡◌, ◌≤◌, ◌⊎◌, MatchResult, IfOk, OnErr};
ghost use Rattle.std.specs.Io.KnownBytes.{Appends, Consumes, Keeps, IsAtEnd};
ghost use Rattle.sv_io.specs.Causes.{Rose, GrowsByFront};
ghost use Rattle.mms_client.specs.declared.fault.ClientFault.TheVariants as faults;

use crate::fault::ClientFault;
use sv_io::{Failed, Link};

/// Sends a piece whole.
pub fn send<L: Link>(link: &mut L, piece: &[u8]) -> Result<(), ClientFault>
    ensures sends { MatchResult result
        (λ _. Appends (L.taken link.old) (L.taken link.new) piece.now)
        (λ f. (f ≡ faults.WriteFault) × Rose (L.Sink.faults link.old) (L.Sink.faults link.new)
        × GrowsByFront (L.taken link.old) (L.taken link.new) piece.now) }
    ensures later { L.Sink.faults link.old ≤ L.Sink.faults link.new }
    ensures left { L.left link.new ≡ L.left link.old }
    ensures reads { L.Source.faults link.new ≡ L.Source.faults link.old }
{
    match sv_io::send(link, piece) {
        Ok(()) => Ok(()),
        Err(Failed) => Err(ClientFault::WriteFault),
    }
}

/// Receives a piece to the front of the buffer, and gives it.
pub fn receive<'a, L: Link>(link: &mut L, buf: &'a mut [u8; 4096]) -> Result<&'a [u8], ClientFault>
    ensures receives { MatchResult result
        (λ p. Consumes (L.left link.old) (L.left link.new) p.now)
        (λ f. Keeps (L.left link.old) (L.left link.new)
        × (((f ≡ faults.Ended) × IsAtEnd (L.left link.new))
        ⊎ ((f ≡ faults.ReadFault) × Rose (L.Source.faults link.old) (L.Source.faults link.new)))) }
    ensures later { L.Source.faults link.old ≤ L.Source.faults link.new }
    ensures taken { L.taken link.new ≡ L.taken link.old }
    ensures writes { L.Sink.faults link.new ≡ L.Sink.faults link.old }
{
    match sv_io::receive(link, buf) {
        Ok(0) => Err(ClientFault::Ended),
        Ok(count) => Ok(&buf[..count]),
        Err(Failed) => Err(ClientFault::ReadFault),
    }
}
