// A whole 6G1 read by one call, which tests the message once.
ghost use Rattle.std.specs.Prelude.{◌≡◌};
ghost use Rattle.optes.specs.Interface.{answered, numbers_read};

use envelope::application::is_6g1;
use numbers::internal::{put_all, put_first};

// Reads as many of the 51 numbers of a 6G1 as the array has room for: 0, or 12 with the array as it was.
// The array of all holds ones at first, since the compiler fills so many zeros by a call of memset, which
// no host has to provide.
#[unsafe(no_mangle)]
pub extern "C" fn optes_6g1_numbers(m: &[u8], numbers: &mut [u64]) -> u32
    ensures { (result, numbers.new) ≡ answered (numbers_read m.now numbers.old) }
{
    if !is_6g1(m) {
        return 12;
    }
    if numbers.len() < 51 {
        let mut all = [1; 51];
        put_all(&mut all, m);
        put_first(numbers, &all);
        return 0;
    }
    put_all(numbers, m);
    0
}
