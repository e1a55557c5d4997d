//! Numbers in base 128, with the high bit set in every octet except the last: tag numbers
//! (X.690 8.1.2.4) and subidentifiers (8.19.2).
ghost use Rattle.std.specs.Prelude.{◌≡◌, ◌+◌, ◌/◌, ◌%◌, ◌^◌, ◌<◌, ◌≤◌, ◌++◌, vec_len, vec_capacity};
ghost use Rattle.rasn_enc.specs.Headers.{digits, chained, group_count};

/// Returns the number of groups of seven bits in a number.
pub fn count_groups(number: u32) -> usize
    ensures { result ≡ group_count number }
{
    if number < 128 {
        1
    } else if number < 16_384 {
        2
    } else if number < 2_097_152 {
        3
    } else if number < 268_435_456 {
        4
    } else {
        5
    }
}

/// Writes a number in base 128, with the high bit set in every octet except the last.
pub fn write_groups(out: &mut Vec<u8>, number: u32)
    requires { vec_len out.old + group_count number ≤ vec_capacity out.old }
    ensures items { out.new.items ≡ out.old.items ++ chained (digits 128 (group_count number) number) }
    ensures capacity { vec_capacity out.new ≡ vec_capacity out.old }
{
    let mut left = count_groups(number);
    while left > 1 {
        left -= 1;
        out.push_reserved(128 + group_at(number, left));
    }
    out.push_reserved((number % 128) as u8);
}

fn group_at(number: u32, place: usize) -> u8
    requires { place < 5 }
    ensures exact { result ≡ number / 128 ^ place % 128 }
    ensures small { result < 128 }
{
    ((number >> (7 * place)) % 128) as u8
}
