// The text that answers a letter.
ghost use Rattle.std.specs.Prelude.{◌≡◌, length, is_ok, if◌then◌else◌, IfOk, string_bytes, IsUtf8};
ghost use Rattle.seal.specs.Replies.{delivered_text, reply_text};
ghost use Rattle.seal.specs.Letters.{given_of};
ghost use Rattle.seal.specs.Sealing.{seal_answer, seal_message};

use crate::exchange::exchange;
use crate::letter::Letter;
use keystream::generator::Generator;
use std::alloc::{AllocError, Global};

// What was sealed and what was opened, a line each.
fn delivered(heap: Global, sealed: &[u8], opened: &[u8]) -> Result<String, AllocError>
    requires { IsUtf8 opened.now }
    ensures { IfOk result (λ text. string_bytes text ≡ delivered_text sealed.now opened.now) }
{
    let clear = std::str::from_utf8(opened).unwrap();
    let sealed = hexadecimal::text(heap, sealed)?;
    format!(in heap; "sealed {sealed}\nclear {clear}")
}

// Sends a message from one generator to another of the same meaning, and tells what was sealed and opened, or the refusal.
pub(crate) fn reply<G: Generator + Drop>(
    heap: Global,
    mut sender: G,
    mut receiver: G,
    letter: &Letter,
    message: &mut [u8],
    opened: &mut [u8],
) -> Result<String, AllocError>
    requires sender { G.sound sender }
    requires receiver { G.sound receiver }
    requires same { G.meaning receiver ≡ G.meaning sender }
    requires utf8 { IsUtf8 message.old }
    requires lengths { length opened.old ≡ length message.old }
    ensures text { IfOk result (λ text.
        string_bytes text ≡ reply_text (G.meaning sender) (given_of letter.now) message.old) }
    ensures message { message.new ≡ seal_message (G.meaning sender) (given_of letter.now) message.old }
    ensures opened { opened.new
        ≡ (if is_ok (seal_answer (G.meaning sender) (given_of letter.now) message.old)
        then message.old
        else opened.old) }
{
    match exchange(&mut sender, &mut receiver, &letter.setup(), message, opened) {
        Ok(()) => delivered(heap, message, opened),
        Err(fault) => format!(in heap; "no {fault}"),
    }
}
