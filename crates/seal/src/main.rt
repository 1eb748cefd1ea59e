// Seals messages of a staff directory on a pad, and opens each again with a second generator.
#![tactic(auto)]

mod exchange;
mod letter;
mod pad_bytes;
mod reply;

use keystream::pad::Pad;
use letter::{Letter, LetterError};
use pad_bytes::pad_bytes;
use reply::reply;

// Sends one message over two pads of the same bytes, and prints the reply.
fn deliver(rt: &(impl Print + AllocGlobal), letter: &Letter, message: &str) -> anyhow::Result<()> {
    let heap = rt.alloc();
    let bytes = pad_bytes();
    let sender = Pad::new(&bytes)?;
    let receiver = Pad::new(&bytes)?;
    let mut sealed = Vec::from_slice(heap, message.as_bytes())?;
    let mut opened = vec![in heap; 0; message.len()]?;
    let text = reply(heap, sender, receiver, letter, &mut sealed, &mut opened)?;
    println!(rt; "{text}")?;
    Ok(())
}

// Answers a letter of four lines.
fn answer(
    rt: &(impl Print + AllocGlobal),
    key: &str,
    count: &str,
    variable: &str,
    message: &str,
) -> anyhow::Result<()> {
    match Letter::read(rt.alloc(), key, count, variable) {
        Ok(letter) => deliver(rt, &letter, message),
        Err(LetterError::Unreadable(line)) => {
            println!(rt; "unreadable {line}")?;
            Ok(())
        }
        Err(LetterError::OutOfMemory(cause)) => Err(cause.into()),
    }
}

// Answers the letters on standard input.
fn run(rt: &(impl Input + Print + AllocGlobal)) -> anyhow::Result<()> {
    let heap = rt.alloc();
    let mut lines = Vec::new(heap);
    for line in rt.lines(heap) {
        lines.push(line?)?;
        if let [key, count, variable, message] = lines.as_slice() {
            answer(rt, key, count, variable, message)?;
            lines.clear();
        }
    }
    Ok(())
}

fn main(rt: HostRuntime) -> anyhow::Result<()> {
    run(&rt)
}
