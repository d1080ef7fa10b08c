//! How a client connects.

ghost use Rattle.std.specs.Prelude.{◌≡◌, MatchResult, IfOk, IfSome, [], Some};
ghost use Rattle.std.specs.List.{AllByRecursion};
ghost use Rattle.osi_stack.specs.Lines.{HasLine, IsLine};
ghost use Rattle.mms_client.specs.declared.meaning.Awaited.TheVariants as awaits;
ghost use Rattle.mms_client.specs.Following.{ends, IsLater, Failure};
ghost use Rattle.mms_client.specs.Opening.{StepsOn, FailsToOpen, Opens};

use crate::fault::ClientFault;
use crate::line::SoundLine;
use crate::link::send;
use crate::stream::Stream;
use osi_stack::{Caller, Event, Line};
use std::alloc::Global;
use std::sync::Wait;
use sv_io::Link;

/// The size of PDUs that is proposed.
const SIZE: u32 = 65000;

/// Takes the next event, or one more piece: the line, once the association is there.
fn advance<L: Link>(
    alloc: Global,
    stream: &mut Stream,
    link: &mut L,
) -> Result<Option<Line>, ClientFault>
    requires { AllByRecursion HasLine stream.old.waiting.items }
    ensures steps { let a = ends (L.left link.old) (L.taken link.old)
        (L.Source.faults link.old) (L.Sink.faults link.old)
        in let b = ends (L.left link.new) (L.taken link.new)
        (L.Source.faults link.new) (L.Sink.faults link.new)
        in MatchResult result
        (λ l. StepsOn stream.old stream.new a b l)
        (λ f. FailsToOpen stream.old a b f) }
    ensures lines { AllByRecursion HasLine stream.new.waiting.items }
    ensures sound { IfOk result (λ l. IfSome l IsLine) }
    ensures later { let a = ends (L.left link.old) (L.taken link.old)
        (L.Source.faults link.old) (L.Sink.faults link.old)
        in let b = ends (L.left link.new) (L.taken link.new)
        (L.Source.faults link.new) (L.Sink.faults link.new)
        in IsLater a b }
{
    let Some(event) = stream.next() else {
        stream.fill(alloc, link)?;
        return Ok(None);
    };
    match event {
        Event::Answer(octets) => {
            send(link, octets.as_slice())?;
            Ok(None)
        }
        Event::Connected(line, _) => Ok(Some(line)),
        // The stack gives no PDU before the association is there.
        Event::Pdu(_) => Ok(None),
        Event::Released(_) | Event::Aborted => Err(ClientFault::Ended),
    }
}

/// Waits for the association.
fn wait<R: Wait, L: Link>(
    rt: &R,
    alloc: Global,
    stream: &mut Stream,
    link: &mut L,
) -> Result<SoundLine, ClientFault>
    requires { AllByRecursion HasLine stream.old.waiting.items }
    ensures steps { let a = ends (L.left link.old) (L.taken link.old)
        (L.Source.faults link.old) (L.Sink.faults link.old)
        in let b = ends (L.left link.new) (L.taken link.new)
        (L.Source.faults link.new) (L.Sink.faults link.new)
        in MatchResult result
        (λ l. StepsOn stream.old stream.new a b (Some l))
        (λ f. FailsToOpen stream.old a b f) }
    ensures later { let a = ends (L.left link.old) (L.taken link.old)
        (L.Source.faults link.old) (L.Sink.faults link.old)
        in let b = ends (L.left link.new) (L.taken link.new)
        (L.Source.faults link.new) (L.Sink.faults link.new)
        in IsLater a b }
{
    for _ in rt.forever() {
        if let Some(line) = advance(alloc, stream, link)? {
            return Ok(SoundLine::new(line));
        }
    }
    unreachable!()
}

/// Makes the association: sends the CR, and the CN once the CC has come, and waits for the AC.
pub fn open<R: Wait, L: Link>(
    rt: &R,
    alloc: Global,
    link: &mut L,
) -> Result<(Stream, SoundLine), ClientFault>
    ensures opens { let a = ends (L.left link.old) (L.taken link.old)
        (L.Source.faults link.old) (L.Sink.faults link.old)
        in let b = ends (L.left link.new) (L.taken link.new)
        (L.Source.faults link.new) (L.Sink.faults link.new)
        in MatchResult result
        (λ x. Opens x.0 x.1 a b)
        (λ f. Failure f a b [] awaits.Reports) }
    ensures later { let a = ends (L.left link.old) (L.taken link.old)
        (L.Source.faults link.old) (L.Sink.faults link.old)
        in let b = ends (L.left link.new) (L.taken link.new)
        (L.Source.faults link.new) (L.Sink.faults link.new)
        in IsLater a b }
{
    let caller = Caller::new(SIZE);
    let opening = caller.opening(alloc)?;
    let mut stream = Stream::new(alloc, caller);
    send(link, opening.as_slice())?;
    let line = wait(rt, alloc, &mut stream, link)?;
    Ok((stream, line))
}
