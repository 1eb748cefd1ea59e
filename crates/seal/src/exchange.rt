// A message sealed by one generator and opened by another.
ghost use Rattle.std.specs.Prelude.{◌≡◌, length, Ok, is_ok, if◌then◌else◌};
ghost use Rattle.seal.specs.Sealing.{seal_answer, seal_message, seal_after, exchange_answer};

use keystream::fault::{GeneratorFault, SpanFault};
use keystream::generator::Generator;
use keystream::setup::Setup;
use keystream::span::apply;

// Whether a message can be sealed under a key and a variable.
pub(crate) fn sealable<G: Generator>(
    generator: &G,
    setup: &Setup<'_>,
    message: &[u8],
) -> Result<(), SpanFault>
    requires { G.sound generator.now }
    ensures { result ≡ seal_answer (G.meaning generator.now) setup.now message.now }
{
    generator.check(setup)?;
    if message.len().saturating_mul(8) as u64 > generator.limit() {
        return Err(GeneratorFault::TakeBeyond.into());
    }
    Ok(())
}

// Seals a message from the first keystream bit on. What is sealed is opened the same way.
pub(crate) fn seal<G: Generator>(
    generator: &mut G,
    setup: &Setup<'_>,
    message: &mut [u8],
) -> Result<(), SpanFault>
    requires { G.sound generator.old }
    ensures answer { result ≡ seal_answer (G.meaning generator.old) setup.now message.old }
    ensures message { message.new ≡ seal_message (G.meaning generator.old) setup.now message.old }
    ensures after { G.meant generator.new
        ≡ seal_after (G.meaning generator.old) (G.meant generator.old) setup.now message.old }
    ensures same { G.meaning generator.new ≡ G.meaning generator.old }
    ensures kept { G.sound generator.new }
    ensures twice { seal_message (G.meaning generator.old) setup.now message.new ≡ message.old }
{
    sealable(generator, setup, message)?;
    generator.load(setup)?;
    apply(generator, message, 0, 8 * message.len())
}

// Seals a message with one generator, and opens what was sealed with another into `opened`.
// Both buffers are lent, so that no memory can be missing once the sender has sealed.
pub(crate) fn exchange<G: Generator, H: Generator>(
    sender: &mut G,
    receiver: &mut H,
    setup: &Setup<'_>,
    message: &mut [u8],
    opened: &mut [u8],
) -> Result<(), SpanFault>
    requires sender { G.sound sender.old }
    requires receiver { H.sound receiver.old }
    requires lengths { length opened.old ≡ length message.old }
    ensures answer { result
        ≡ exchange_answer (G.meaning sender.old) (H.meaning receiver.old) setup.now message.old }
    ensures message { message.new ≡ (if is_ok result
        then seal_message (G.meaning sender.old) setup.now message.old
        else message.old) }
    ensures opened { opened.new ≡ (if is_ok result
        then seal_message (H.meaning receiver.old) setup.now
        (seal_message (G.meaning sender.old) setup.now message.old)
        else opened.old) }
    ensures back { H.meaning receiver.old ≡ G.meaning sender.old
        → (result ≡ seal_answer (G.meaning sender.old) setup.now message.old)
        × (result ≡ Ok tt → opened.new ≡ message.old) }
    ensures sender_after { G.meant sender.new ≡ (if is_ok result
        then seal_after (G.meaning sender.old) (G.meant sender.old) setup.now message.old
        else G.meant sender.old) }
    ensures sender_same { G.meaning sender.new ≡ G.meaning sender.old }
    ensures sender_kept { G.sound sender.new }
    ensures receiver_after { H.meant receiver.new ≡ (if is_ok result
        then seal_after (H.meaning receiver.old) (H.meant receiver.old) setup.now message.old
        else H.meant receiver.old) }
    ensures receiver_same { H.meaning receiver.new ≡ H.meaning receiver.old }
    ensures receiver_kept { H.sound receiver.new }
{
    sealable(sender, setup, message)?;
    sealable(receiver, setup, message)?;
    seal(sender, setup, message)?;
    opened.copy_from_slice(message);
    seal(receiver, setup, opened)
}
