// What was made is written to the sinks.
ghost use Rattle.std.specs.Prelude.{◌≡◌, false, None, Some, IfOk, IfErr};
ghost use Rattle.mont_image.specs.ImageText.{image_text};
ghost use Rattle.montage_tool.specs.Devices.{IsImageSent, IsWritten, SinkSeen, sink_seen};

use crate::job_runs::MadeRun;
use crate::status::{SinkName, Status};
use mont_base::{Sink, deliver};
use mont_image::{Image, write_image};

// Writes a text.
pub(crate) fn send<O: Sink>(out: &mut O, bytes: &[u8]) -> Status
    ensures { (image_out : SinkSeen) → IsWritten (record { text = bytes.now; image = None })
        (sink_seen O.Sink out.old) (sink_seen O.Sink out.new) image_out image_out result }
{
    match deliver(out, bytes) {
        Ok(()) => Status::Done,
        Err(_) => Status::WriteFault {
            which: SinkName::Report,
        },
    }
}

// Writes a text, if there is one.
pub(crate) fn send_text<O: Sink>(out: &mut O, text: Result<Vec<u8>, Status>) -> Status
    ensures made { (image_out : SinkSeen) → IfOk text (λ t. IsWritten
        (record { text = t.items; image = None })
        (sink_seen O.Sink out.old) (sink_seen O.Sink out.new) image_out image_out result) }
    ensures refused { IfErr text (λ status. (result ≡ status) × (out.new ≡ out.old)) }
{
    match text {
        Ok(text) => send(out, &text),
        Err(status) => status,
    }
}

// Writes the report of a run, if there is one.
pub(crate) fn send_report<O: Sink>(out: &mut O, run: Result<MadeRun, Status>) -> Status
    ensures made { (image_out : SinkSeen) → IfOk run (λ m. IsWritten
        (record { text = m.report.items; image = None })
        (sink_seen O.Sink out.old) (sink_seen O.Sink out.new) image_out image_out result) }
    ensures refused { IfErr run (λ status. (result ≡ status) × (out.new ≡ out.old)) }
{
    match run {
        Ok(run) => send(out, &run.report),
        Err(status) => status,
    }
}

// Writes the report of a run, if there is one, and after all of it the image.
pub(crate) fn send_both<O: Sink, K: Sink>(
    out: &mut O,
    image_out: &mut K,
    run: Result<MadeRun, Status>,
) -> Status
    ensures made { IfOk run (λ m. IsWritten
        (record { text = m.report.items; image = Some (image_text m.image.layout m.image.words) })
        (sink_seen O.Sink out.old) (sink_seen O.Sink out.new)
        (sink_seen K.Sink image_out.old) (sink_seen K.Sink image_out.new) result) }
    ensures fault { result ≡ Status.WriteFault SinkName.Report → image_out.new ≡ image_out.old }
    ensures refused { IfErr run (λ status. (result ≡ status) × (out.new ≡ out.old)
        × (image_out.new ≡ image_out.old)) }
{
    match run {
        Ok(run) => send_made(out, image_out, &run),
        Err(status) => status,
    }
}

// Writes the report of a run, and after all of it the image.
fn send_made<O: Sink, K: Sink>(out: &mut O, image_out: &mut K, run: &MadeRun) -> Status
    ensures made { IsWritten
        (record {
          text = run.now.report.items;
          image = Some (image_text run.now.image.layout run.now.image.words);
        })
        (sink_seen O.Sink out.old) (sink_seen O.Sink out.new)
        (sink_seen K.Sink image_out.old) (sink_seen K.Sink image_out.new) result }
    ensures fault { result ≡ Status.WriteFault SinkName.Report → image_out.new ≡ image_out.old }
{
    match deliver(out, &run.report) {
        Ok(()) => send_image(image_out, &run.image),
        Err(_) => Status::WriteFault {
            which: SinkName::Report,
        },
    }
}

// Writes an image, which is as images are now.
fn send_image<K: Sink>(image_out: &mut K, image: &Image) -> Status
    requires { image.now.old ≡ false }
    ensures { IsImageSent (image_text image.now.layout image.now.words)
        (sink_seen K.Sink image_out.old) (sink_seen K.Sink image_out.new) result }
{
    match write_image(image, image_out) {
        Ok(()) => Status::Done,
        Err(_) => Status::WriteFault {
            which: SinkName::Image,
        },
    }
}
