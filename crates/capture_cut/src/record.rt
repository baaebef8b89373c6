// The record of an event that is not played.
ghost use Rattle.gpu_capture.specs.Record.{IsEvent};
ghost use Rattle.gpu_capture.specs.Written.{Allows};

use gpu_capture::Event;

/// Proves that version 2 has a record for this event and that its values are words. Does nothing.
pub(crate) fn allowed(event: Event)
    requires { IsEvent event }
    ensures { Allows 2 event }
{
    match event {
        Event::Ram { word, .. } => {
            let _ = word;
        }
        Event::Gp0 { word } => {
            let _ = word;
        }
        Event::Gp1 { word } => {
            let _ = word;
        }
        Event::Dma {
            madr,
            bcr,
            chcr,
            ..
        } => {
            let _ = (madr, bcr, chcr);
        }
        Event::Begin { madr, bcr, chcr } => {
            let _ = (madr, bcr, chcr);
        }
        Event::Read => {}
        Event::Stat => {}
        Event::Turn => {}
        Event::Skip => {}
    }
}
