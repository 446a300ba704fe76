// Decimal numbers, read and written.
ghost use Rattle.std.specs.Prelude.{◌≡◌, ◌+◌, ◌^◌, ◌<◌, ◌≤◌, true, ◌++◌, length, IfSome, is_ok, if◌then◌else◌, vec_len, vec_capacity, decimal};
ghost use Rattle.text.specs.Decimal.{digits_on, number_of};
ghost use Rattle.text.specs.Room.{HasRoom};

use std::alloc::AllocError;

// The most digits of a number of 64 bits.
const DIGITS: usize = 20;

// The number that at most ten digits write.
fn digits_in(text: &[u8]) -> Option<u64>
    requires { length text.now ≤ 10 }
    ensures value { result ≡ digits_on 0 text.now }
    ensures small { IfSome result (λ n. n < 10 ^ length text.now) }
{
    let mut n = 0;
    for b in text {
        n = n * 10 + u64::from(char::from(*b).to_digit(10)?);
    }
    Some(n)
}

// A number of one digit to ten, or nothing where the text is of another form. `str::parse` would take a sign and more digits.
pub fn number_in(text: &[u8]) -> Option<u64>
    ensures value { result ≡ number_of text.now }
    ensures small { IfSome result (λ n. n < 10 ^ length text.now) }
{
    if text.is_empty() || text.len() > 10 {
        return None;
    }
    digits_in(text)
}

// The last digit after those before it, where there is room.
fn put_digits(out: &mut Vec<u8>, n: u64)
    requires { HasRoom out.old (length (decimal n)) }
    ensures items { out.new.items ≡ out.old.items ++ decimal n }
    ensures len { vec_len out.new ≡ vec_len out.old + length (decimal n) }
    ensures capacity { vec_capacity out.new ≡ vec_capacity out.old }
{
    if n < 10 {
        out.push_reserved(b'0' + n as u8);
    } else {
        put_digits(out, n / 10);
        out.push_reserved(b'0' + (n % 10) as u8);
    }
}

// The digits of a number, of which there are 20 at most.
fn put_number(out: &mut Vec<u8>, n: u64)
    requires { HasRoom out.old 20 }
    ensures items { out.new.items ≡ out.old.items ++ decimal n }
    ensures len { vec_len out.new ≤ vec_len out.old + 20 }
    ensures capacity { vec_capacity out.new ≡ vec_capacity out.old }
{
    put_digits(out, n);
}

// The digits of a number at the end of `out`, which is as it was where memory is wanting; 20 free bytes suffice.
pub fn put_decimal(out: &mut Vec<u8>, n: u64) -> Result<(), AllocError>
    ensures items { out.new.items ≡ (if is_ok result then out.old.items ++ decimal n else out.old.items) }
    ensures len { vec_len out.new ≤ vec_len out.old + 20 }
    ensures capacity { vec_capacity out.old ≤ vec_capacity out.new }
    ensures succeeds { HasRoom out.old 20 → is_ok result ≡ true }
{
    out.reserve(DIGITS)?;
    put_number(out, n);
    Ok(())
}
