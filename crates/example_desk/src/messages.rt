// The applications of the worked session.
use addresses::Address;
use envelope::application::{Application, write};
use places::{Amount, Rate};

// An application of a counterparty, with its reference time and one bid. Numbers that do not fit their fields would leave zeros, which the book refuses with 12.
pub fn application(code: u64, time: u64, rate: u32, amount: u64) -> [u8; 339] {
    let mut rates = [Rate(0); 10];
    rates[0] = Rate(rate);
    let mut amounts = [Amount(0); 10];
    amounts[0] = Amount(amount);
    let numbers = Application {
        sender: Address::Code(code),
        recipient: Address::Code(1000),
        cro: 1,
        date: 12032012,
        time,
        check: 0,
        rates,
        amounts,
    };
    let mut message = [0u8; 339];
    let _ = write(
        numbers,
        b"6G1",
        b"T/2012/0001",
        b"CONTACT NAME   ",
        &mut message,
    );
    message
}
