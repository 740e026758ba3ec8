// Words in lent bytes: four bytes a word, the lowest first.
//
//     bytes   b0 b1 b2 b3 | b4 b5 b6 b7 | ..
//     word         0      |      1      | ..
#![tactic(auto)]

ghost use Rattle.std.specs.Prelude.{◌≡◌, ◌+◌, ◌*◌, ◌≤◌, ◌<◌, length, take, drop};
ghost use Rattle.octets.specs.Octets.{word_at, words, octets};

// Word i of bytes, by number: `try_into` of a slice would bring a `Result` that is never `Err`.
pub fn word_at(bytes: &[u8], i: usize) -> u32
    requires { 4 * i + 3 < length bytes.now }
    ensures { result ≡ word_at bytes.now i }
{
    let b = 4 * i;
    u32::from_le_bytes([bytes[b], bytes[b + 1], bytes[b + 2], bytes[b + 3]])
}

// Fills ws with the words of bytes from word `from` on.
pub fn decode(bytes: &[u8], from: usize, ws: &mut [u32])
    requires { 4 * (from + length ws.old) ≤ length bytes.now }
    ensures { ws.new ≡ take (length ws.old) (drop from (words bytes.now)) }
{
    // By number: of the words that a `zip` of `iter_mut` with `chunks_exact` lends nothing is known after the loop (tried).
    for (i, w) in ws.iter_mut().enumerate() {
        *w = word_at(bytes, from + i);
    }
}

// Fills bytes with those of ws.
pub fn encode(ws: &[u32], bytes: &mut [u8])
    requires { length bytes.old ≡ 4 * length ws.now }
    ensures { bytes.new ≡ octets ws.now }
{
    // By number: of the parts that `chunks_exact_mut` lends only their length is known after the loop.
    for (i, w) in ws.iter().enumerate() {
        bytes[4 * i..4 * i + 4].copy_from_slice(&w.to_le_bytes());
    }
}
