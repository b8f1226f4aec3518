// Numbers as they are written, and the texts before them.
ghost use Rattle.std.specs.Prelude.{◌≡◌, ◌+◌, ◌++◌, ◌<◌, ◌≤◌, ◌^◌, IfSome, decimal, length, take};
ghost use Rattle.std.specs.Str.Parse.{digits_value, AllDigits};

/// The bytes after this text, if they begin with it.
#[inline(always)]
pub fn after<'l>(bytes: &'l [u8], text: &[u8]) -> Option<&'l [u8]>
    ensures text { IfSome result (λ rest. bytes.now ≡ text.now ++ rest.now) }
    ensures shorter { IfSome result (λ rest. length rest.now + length text.now
        ≡ length bytes.now) }
{
    bytes.strip_prefix(text)
}

/// The number of 64 bits after this text, and the bytes after it.
#[inline(always)]
pub fn number_then<'l>(bytes: &'l [u8], text: &[u8]) -> Option<(u64, &'l [u8])>
    ensures text { IfSome result (λ p. bytes.now ≡ text.now ++ (decimal p.0 ++ p.1.now)) }
    ensures fits { IfSome result (λ p. p.0 < 2 ^ 64) }
    ensures shorter { IfSome result (λ p. length p.1.now < length bytes.now) }
{
    number(after(bytes, text)?)
}

/// The number of 32 bits after this text, and the bytes after it.
#[inline(always)]
pub fn small_then<'l>(bytes: &'l [u8], text: &[u8]) -> Option<(u32, &'l [u8])>
    ensures text { IfSome result (λ p. bytes.now ≡ text.now ++ (decimal p.0 ++ p.1.now)) }
    ensures fits { IfSome result (λ p. p.0 < 2 ^ 32) }
{
    let (number, rest) = number_then(bytes, text)?;
    let small = u32::try_from(number).ok()?;
    Some((small, rest))
}

/// The number that these bytes begin with, with no leading zero, and the bytes after it.
pub fn number(bytes: &[u8]) -> Option<(u64, &[u8])>
    ensures text { IfSome result (λ p. bytes.now ≡ decimal p.0 ++ p.1.now) }
    ensures fits { IfSome result (λ p. p.0 < 2 ^ 64) }
    ensures shorter { IfSome result (λ p. length p.1.now < length bytes.now) }
{
    let (number, count) = digits(bytes)?;
    if count == 0 {
        return None;
    }
    let rest = &bytes[count..];
    if bytes[0] != b'0' {
        return Some((number, rest));
    }
    if count != 1 {
        return None;
    }
    Some((number, rest))
}

/// The number of the digits that these bytes begin with, and how many there are.
#[inline(always)]
fn digits(bytes: &[u8]) -> Option<(u64, usize)>
    ensures value { IfSome result (λ p. p.0 ≡ digits_value 10 (take p.1 bytes.now)) }
    ensures digits { IfSome result (λ p. AllDigits 10 (take p.1 bytes.now)) }
    ensures within { IfSome result (λ p. p.1 ≤ length bytes.now) }
    ensures fits { IfSome result (λ p. p.0 < 2 ^ 64) }
{
    let mut number = 0u64;
    let mut count = 0;
    while count < bytes.len() {
        let byte = bytes[count];
        if byte < b'0' || b'9' < byte {
            break;
        }
        number = number.checked_mul(10)?.checked_add(u64::from(byte - b'0'))?;
        count += 1;
    }
    Some((number, count))
}
