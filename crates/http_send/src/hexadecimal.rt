//! Numbers in hexadecimal digits.

ghost use Rattle.std.specs.Prelude.{◌≡◌, ◌<◌, ◌≤◌, drop, false};
ghost use Rattle.std.specs.Fmt.{digit_glyph};
ghost use Rattle.http_send.specs.Replies.{hexadecimal};

// The digit for a number below 16.
fn hex_digit(value: u64) -> u8
    requires { value < 16 }
    ensures { result ≡ digit_glyph false value }
{
    if value < 10 {
        b'0' + value as u8
    } else {
        b'a' + (value - 10) as u8
    }
}

// Writes `n` in hexadecimal at the end of `out`, and answers where it starts.
fn write_hexadecimal(n: u64, out: &mut [u8; 64]) -> usize
    ensures within { result ≤ 64 }
    ensures text { drop result out.new ≡ hexadecimal n }
{
    let mut at = 64;
    let mut rest = n;
    while at > 0 {
        at -= 1;
        out[at] = hex_digit(rest % 16);
        rest /= 16;
        if rest == 0 {
            break;
        }
    }
    at
}

/// The text of `n` in lower-case hexadecimal, at the end of `out`.
pub(crate) fn hexadecimal_text(n: u64, out: &mut [u8; 64]) -> &[u8]
    ensures { result.now ≡ hexadecimal n }
{
    let start = write_hexadecimal(n, out);
    &out[start..]
}
