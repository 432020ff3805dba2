// Texts as the tables in data/ write them; data/README.txt says how.
use std::alloc::{AllocError, Global};

// What a byte of a piece stands for, where this is the header line of the file.
fn meaning<'a>(byte: &'a [u8; 1], header: &'a [u8]) -> &'a [u8] {
    match byte {
        b"@" => header,
        b"/" => b"\r\n",
        b"<" => b"\r",
        b">" => b"\n",
        b"_" => b" ",
        b"~" => b"\x00",
        b"^" => b"\xEF\xBB\xBF",
        b"!" => b"",
        _ => byte,
    }
}

fn spell(text: &mut Vec<u8>, header: &[u8], piece: &str) -> Result<(), AllocError> {
    for byte in piece.bytes() {
        text.extend_from_slice(meaning(&[byte], header))?;
    }
    Ok(())
}

// The text that is written so, where this is the header line of its file.
pub fn text_of(heap: Global, header: &[u8], notation: &str) -> Result<Vec<u8>, AllocError> {
    let mut text = Vec::new(heap);
    for piece in notation.split_whitespace() {
        let (times, unit) = match piece.split_once('*') {
            Some((times, unit)) => (times.parse::<usize>().unwrap_or(0), unit),
            None => (1, piece),
        };
        for _ in 0..times {
            spell(&mut text, header, unit)?;
        }
    }
    Ok(text)
}
