// Lines of the program `vectors` on the block cipher: DSTU 7624's published vectors enciphered and deciphered, then keys, sources and targets of 31
// and of 33 bytes.
#![tactic(auto)]

mod tables;

use kalyna::{decipher, encipher};
use printing::{Bytes, Out};
use refusals::{Refusal, number_of};
use std::fmt;
use std::fmt::{Display, Write};

// What a call, of enciphering or of deciphering, answers and leaves in a target, behind a name.
fn line<C: Fn(&[u8], &[u8], &mut [u8]) -> Result<(), Refusal>>(
    out: &mut Out,
    name: impl Display + Drop,
    call: &C,
    key: &[u8],
    source: &[u8],
    target: &mut [u8],
) -> fmt::Result
    requires { C.IsAlwaysCallable call.now }
{
    let answer = call(key, source, target);
    writeln!(out, "{name}: {} {}", number_of(answer), Bytes(target))
}

// The published vectors, both ways.
pub fn published(out: &mut Out) -> fmt::Result {
    for (i, vector) in tables::PUBLISHED.iter().enumerate() {
        let place = i + 1;
        let (key, plain, enciphered) = (&vector.key, &vector.plain, &vector.enciphered);
        let way = format_args!("block {place} enciphered");
        line(out, way, &encipher, key, plain, &mut [0; 32])?;
        let way = format_args!("block {place} deciphered");
        line(out, way, &decipher, key, enciphered, &mut [0; 32])?;
    }
    Ok(())
}

// Key, source and target in turn with a byte too few and with one too many, where the target is of bytes FF.
fn lengths_of<C: Fn(&[u8], &[u8], &mut [u8]) -> Result<(), Refusal>>(
    out: &mut Out,
    way: &str,
    call: &C,
) -> fmt::Result
    requires { C.IsAlwaysCallable call.now }
{
    let few = [0; 31];
    let many = [0; 33];
    let lengths = [&few[..], &many[..]];
    for key in lengths {
        let name = format_args!("{way}, key of {}", key.len());
        line(out, name, call, key, &[0; 32], &mut [255; 32])?;
    }
    for source in lengths {
        let name = format_args!("{way}, source of {}", source.len());
        line(out, name, call, &[0; 32], source, &mut [255; 32])?;
    }
    let name = format_args!("{way}, target of 31");
    line(out, name, call, &[0; 32], &[0; 32], &mut [255; 31])?;
    let name = format_args!("{way}, target of 33");
    line(out, name, call, &[0; 32], &[0; 32], &mut [255; 33])
}

// Lengths that are refused, both ways.
pub fn lengths(out: &mut Out) -> fmt::Result {
    lengths_of(out, "encipher", &encipher)?;
    lengths_of(out, "decipher", &decipher)
}
