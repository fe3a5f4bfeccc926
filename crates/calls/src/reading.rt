// The arguments of a call (vectors/CALLS.md): numbers, and TEXT with its %XX. Each is cut from the front of what is
// left of the call.
ghost use Rattle.std.specs.Prelude.{◌<◌, ◌≤◌, length, IfSome};

// The decimal number at the front, 0 where there is no digit, and what is behind it. One that is too large for its type
// becomes the greatest, which lies outside every range too.
pub(crate) fn number(call: &[u8]) -> (u32, &[u8]) {
    let end = call.iter().position(|byte| !byte.is_ascii_digit());
    let (digits, rest) = call.split_at(end.unwrap_or(call.len()));
    let value = digits.iter().fold(0u32, |value, digit| {
        value
            .saturating_mul(10)
            .saturating_add(u32::from(*digit % 16))
    });
    (value, rest)
}

// What is behind a blank, if one stands at the front.
pub(crate) fn behind_blank(call: &[u8]) -> &[u8] {
    call.strip_prefix(b" ").unwrap_or(call)
}

// ---- TEXT

// What a capital hex digit stands for.
fn hex(byte: u8) -> Option<u8>
    ensures { IfSome result (λ digit. digit < 16) }
{
    match byte {
        b'0'..=b'9' => Some(byte - b'0'),
        b'A'..=b'F' => Some(byte - b'A' + 10),
        _ => None,
    }
}

// The byte that two hex digits stand for.
fn coded(high: u8, low: u8) -> Option<u8> {
    let high = hex(high)?;
    let low = hex(low)?;
    Some(high * 16 + low)
}

// The byte that stands at the front, and what is behind it: of %XX the one of that number, else itself.
fn first(code: &[u8]) -> Option<(u8, &[u8])> {
    if let [b'%', high, low, rest @ ..] = code {
        if let Some(byte) = coded(*high, *low) {
            return Some((byte, rest));
        }
    }
    match code {
        [byte, rest @ ..] => Some((*byte, rest)),
        [] => None,
    }
}

// Writes what TEXT stands for, as far as there is space, and returns its length.
pub(crate) fn decode(code: &[u8], text: &mut [u8]) -> usize
    ensures { result ≤ length text.new }
{
    let mut code = code;
    let len = text.len();
    for (n, place) in text.iter_mut().enumerate() {
        let Some((byte, rest)) = first(code) else {
            return n;
        };
        *place = byte;
        code = rest;
    }
    len
}
