// A 6G1 written for a host from numbers, texts and the space: with short addresses, or with each in the
// form that the host names.
ghost use Rattle.std.specs.Prelude.{◌≡◌, [], ◌∷◌, ◌%◌};
ghost use Rattle.addresses.specs.declared.Address.TheVariants.{Code};
ghost use Rattle.envelope.specs.Application.{write, write_refusal};
ghost use Rattle.optes.specs.Interface.{address_from, answer_number, answered, application_of, rate_of};

use addresses::Address;
use envelope::application::{Application, WriteRefusal, write};
use places::{Amount, Rate};

// What 32 bits hold of a rate.
fn rate(n: u64) -> Rate
    ensures { result ≡ rate_of (n % 4294967296) }
{
    Rate((n % 4294967296) as u32)
}

// The address of a length, which is that of one of the two forms; the short form has only the code.
fn address(code: u64, length: u64, branch: u64, text: &[u8]) -> Address
    ensures { result ≡ address_from code length branch text.now }
{
    if length == 5 {
        return Address::Code(code);
    }
    if (length == 14) & (text.len() == 2) {
        return Address::Branch(code, branch, text[0], text[1]);
    }
    Address::Malformed
}

// The number of an answer, 0 where nothing was refused.
fn number(answer: Result<(), WriteRefusal>) -> u32
    ensures { result ≡ answer_number (write_refusal answer) }
{
    match answer {
        Ok(()) => 0,
        Err(WriteRefusal::Unfit) => 17,
        Err(WriteRefusal::NoRoom) => 18,
    }
}

// Writes a 6G1 at the start of the space: 0, or 17 or 18 with the space as it was. A rate of over eight
// digits is too wide for its field, and is refused before 32 bits are taken of it.
fn written(
    from: Address,
    to: Address,
    cro: u64,
    date: u64,
    time: u64,
    check: u64,
    rate0: u64,
    rate1: u64,
    rate2: u64,
    rate3: u64,
    rate4: u64,
    rate5: u64,
    rate6: u64,
    rate7: u64,
    rate8: u64,
    rate9: u64,
    amount0: u64,
    amount1: u64,
    amount2: u64,
    amount3: u64,
    amount4: u64,
    amount5: u64,
    amount6: u64,
    amount7: u64,
    amount8: u64,
    amount9: u64,
    kind: &[u8],
    identifier: &[u8],
    name: &[u8],
    space: &mut [u8],
) -> u32
    ensures { (result, space.new) ≡ answered (write (application_of from to cro date time check
        (rate0 ∷ rate1 ∷ rate2 ∷ rate3 ∷ rate4 ∷ rate5 ∷ rate6 ∷ rate7 ∷ rate8 ∷ rate9 ∷ [])
        (amount0 ∷ amount1 ∷ amount2 ∷ amount3 ∷ amount4 ∷ amount5 ∷ amount6 ∷ amount7 ∷ amount8 ∷ amount9 ∷ []))
        kind.now identifier.now name.now space.old) }
{
    if !((rate0 < 100000000)
        & (rate1 < 100000000)
        & (rate2 < 100000000)
        & (rate3 < 100000000)
        & (rate4 < 100000000)
        & (rate5 < 100000000)
        & (rate6 < 100000000)
        & (rate7 < 100000000)
        & (rate8 < 100000000)
        & (rate9 < 100000000))
    {
        return 17;
    }
    let rates = [
        rate(rate0),
        rate(rate1),
        rate(rate2),
        rate(rate3),
        rate(rate4),
        rate(rate5),
        rate(rate6),
        rate(rate7),
        rate(rate8),
        rate(rate9),
    ];
    let amounts = [
        Amount(amount0),
        Amount(amount1),
        Amount(amount2),
        Amount(amount3),
        Amount(amount4),
        Amount(amount5),
        Amount(amount6),
        Amount(amount7),
        Amount(amount8),
        Amount(amount9),
    ];
    let a = Application {
        sender: from,
        recipient: to,
        cro,
        date,
        time,
        check,
        rates,
        amounts,
    };
    number(write(a, kind, identifier, name, space))
}

// Writes a 6G1 whose addresses have the short form.
#[unsafe(no_mangle)]
pub extern "C" fn optes_6g1_write(
    sender: u64,
    recipient: u64,
    cro: u64,
    date: u64,
    time: u64,
    check: u64,
    rate0: u64,
    rate1: u64,
    rate2: u64,
    rate3: u64,
    rate4: u64,
    rate5: u64,
    rate6: u64,
    rate7: u64,
    rate8: u64,
    rate9: u64,
    amount0: u64,
    amount1: u64,
    amount2: u64,
    amount3: u64,
    amount4: u64,
    amount5: u64,
    amount6: u64,
    amount7: u64,
    amount8: u64,
    amount9: u64,
    kind: &[u8],
    identifier: &[u8],
    name: &[u8],
    space: &mut [u8],
) -> u32
    ensures { (result, space.new) ≡ answered (write (application_of (Code sender) (Code recipient) cro date time check
        (rate0 ∷ rate1 ∷ rate2 ∷ rate3 ∷ rate4 ∷ rate5 ∷ rate6 ∷ rate7 ∷ rate8 ∷ rate9 ∷ [])
        (amount0 ∷ amount1 ∷ amount2 ∷ amount3 ∷ amount4 ∷ amount5 ∷ amount6 ∷ amount7 ∷ amount8 ∷ amount9 ∷ []))
        kind.now identifier.now name.now space.old) }
{
    written(
        Address::Code(sender),
        Address::Code(recipient),
        cro,
        date,
        time,
        check,
        rate0,
        rate1,
        rate2,
        rate3,
        rate4,
        rate5,
        rate6,
        rate7,
        rate8,
        rate9,
        amount0,
        amount1,
        amount2,
        amount3,
        amount4,
        amount5,
        amount6,
        amount7,
        amount8,
        amount9,
        kind,
        identifier,
        name,
        space,
    )
}

// Writes a 6G1 whose addresses have length 5 or 14: another length, or a long address whose text is not
// two characters, is answered with 17.
#[unsafe(no_mangle)]
pub extern "C" fn optes_6g1_write_addresses(
    sender: u64,
    sender_length: u64,
    sender_branch: u64,
    recipient: u64,
    recipient_length: u64,
    recipient_branch: u64,
    cro: u64,
    date: u64,
    time: u64,
    check: u64,
    rate0: u64,
    rate1: u64,
    rate2: u64,
    rate3: u64,
    rate4: u64,
    rate5: u64,
    rate6: u64,
    rate7: u64,
    rate8: u64,
    rate9: u64,
    amount0: u64,
    amount1: u64,
    amount2: u64,
    amount3: u64,
    amount4: u64,
    amount5: u64,
    amount6: u64,
    amount7: u64,
    amount8: u64,
    amount9: u64,
    sender_text: &[u8],
    recipient_text: &[u8],
    kind: &[u8],
    identifier: &[u8],
    name: &[u8],
    space: &mut [u8],
) -> u32
    ensures { (result, space.new) ≡ answered (write (application_of
        (address_from sender sender_length sender_branch sender_text.now)
        (address_from recipient recipient_length recipient_branch recipient_text.now)
        cro date time check
        (rate0 ∷ rate1 ∷ rate2 ∷ rate3 ∷ rate4 ∷ rate5 ∷ rate6 ∷ rate7 ∷ rate8 ∷ rate9 ∷ [])
        (amount0 ∷ amount1 ∷ amount2 ∷ amount3 ∷ amount4 ∷ amount5 ∷ amount6 ∷ amount7 ∷ amount8 ∷ amount9 ∷ []))
        kind.now identifier.now name.now space.old) }
{
    let from = address(sender, sender_length, sender_branch, sender_text);
    let to = address(
        recipient,
        recipient_length,
        recipient_branch,
        recipient_text,
    );
    written(
        from, to, cro, date, time, check, rate0, rate1, rate2, rate3, rate4, rate5, rate6, rate7,
        rate8, rate9, amount0, amount1, amount2, amount3, amount4, amount5, amount6, amount7,
        amount8, amount9, kind, identifier, name, space,
    )
}
