// Numbers in hexadecimal digits, without memory.
ghost use Rattle.std.specs.Prelude.{◌≡◌, ◌<◌, false};
ghost use Rattle.std.specs.Fmt.{digit_glyph};
ghost use Rattle.hm_types.specs.Id.{hex16};

/// The 16 lower-case hexadecimal digits of a number.
pub(crate) fn hex_digits(number: u64) -> [u8; 16]
    ensures { result ≡ hex16 number }
{
    let mut digits = [b'0'; 16];
    let mut rest = number;
    for done in 0..16usize {
        digits[15 - done] = hex_digit((rest % 16) as u8);
        rest /= 16;
    }
    digits
}

fn hex_digit(number: u8) -> u8
    requires { number < 16 }
    ensures { result ≡ digit_glyph false number }
{
    if number < 10 {
        b'0' + number
    } else {
        b'a' + (number - 10)
    }
}

#[cfg(test)]
mod tests {
    use super::*;

    #[test]
    fn writes_all_sixteen_digits(rt: HostRuntime) {
        for (number, want) in [
            (0, b"0000000000000000"),
            (0xDEAD_BEEF, b"00000000deadbeef"),
            (0x8000_0000_0580_0000, b"8000000005800000"),
            (u64::MAX, b"ffffffffffffffff"),
        ] {
            assert!(rt; hex_digits(number) == *want, "{number}");
        }
    }
}
